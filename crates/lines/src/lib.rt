// A picture's lines, written by a pen into a lent buffer.
#![tactic(auto)]

ghost use Rattle.std.specs.Prelude.{◌≡◌, ◌+◌, ◌*◌, ◌<◌, ◌≤◌, ◌^◌, ◌++◌, length};
ghost use Rattle.entity.specs.Limits.{limits, param_room};
ghost use Rattle.lines.specs.Text.{decimal, named, each, values, block_line, edge_line};
ghost use Rattle.lines.specs.Wrote.{Writes, line_most};

use crate::pen::Pen;
use entity::{Block, Branch};

pub mod pen;

impl Pen<'_> {
    // Each after a comma.
    fn put_more(&mut self, xs: &[u32])
        requires { (self.old.at < 2 ^ 60) × (length xs.now ≤ param_room limits) }
        ensures wrote { Writes self.old (each (named ",v") xs.now) self.new }
        ensures upper_bound { self.new.at ≤ self.old.at + length xs.now * 2 ^ 33 }
    {
        for x in xs {
            self.put_named(b",v", *x);
        }
    }

    fn put_values(&mut self, xs: &[u32])
        requires { (self.old.at < 2 ^ 59) × (length xs.now ≤ param_room limits) }
        ensures wrote { Writes self.old (values xs.now) self.new }
        ensures upper_bound { self.new.at ≤ self.old.at + param_room limits * 2 ^ 33 }
    {
        if let Some((first, rest)) = xs.split_first() {
            self.put_named(b"v", *first);
            self.put_more(rest);
        }
    }

    // The names of two blocks, and between them a text that ends with the second's letter.
    fn put_names(&mut self, first: u32, between: &[u8], second: u32)
        requires { (self.old.at < 2 ^ 58) × (length between.now < 2 ^ 32) }
        ensures wrote { Writes self.old (named "b" first ++ (between.now ++ decimal second)) self.new }
        ensures upper_bound { self.new.at ≤ self.old.at + 2 * 2 ^ 33 }
    {
        self.put_named(b"b", first);
        self.put_named(between, second);
    }

    // Values with one text before them and one after.
    fn put_between(&mut self, before: &[u8], xs: &[u32], after: &[u8])
        requires at_bound { (self.old.at < 2 ^ 58 + 2 ^ 35) × (length xs.now ≤ param_room limits) }
        requires before_len_bound { (length before.now < 2 ^ 32) × (length after.now < 2 ^ 32) }
        ensures wrote { Writes self.old (before.now ++ values xs.now ++ after.now) self.new }
        ensures upper_bound { self.new.at ≤ self.old.at + (param_room limits + 1) * 2 ^ 33 }
    {
        self.put(before);
        self.put_values(xs);
        self.put(after);
    }

    pub fn put_block(&mut self, block: Block, params: &[u32])
        requires { (self.old.at < 2 ^ 58) × (length params.now ≤ param_room limits) }
        ensures wrote { Writes self.old (block_line block.0 params.now) self.new }
        ensures upper_bound { self.new.at ≤ self.old.at + line_most }
    {
        self.put_names(block.0, b" [label=\"b", block.0);
        self.put_between(b"(", params, b")\"];\n");
    }

    pub fn put_edge(&mut self, branch: Branch, dest: Block, args: &[u32])
        requires { (self.old.at < 2 ^ 58) × (length args.now ≤ param_room limits) }
        ensures wrote { Writes self.old (edge_line branch.0 dest.0 args.now) self.new }
        ensures upper_bound { self.new.at ≤ self.old.at + line_most }
    {
        self.put_names(branch.0, b" -> b", dest.0);
        self.put_between(b" [label=\"", args, b"\"];\n");
    }
}
