// What a session means. This crate has no code: specs/ is what a reader must believe.
#![tactic(auto)]
