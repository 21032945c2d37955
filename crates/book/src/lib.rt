//! The theory of a sheet: what each call answers and leaves, what a whole past of calls is, and the rules that a refresh keeps in every
//! one of them, with no memory in sight.
#![tactic(auto)]
