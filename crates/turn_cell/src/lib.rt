//! A lock of one's own over one value whose log grows. All who take the lock see one log, and each entry stands
//! in it exactly once, with the number of the pass that added it. The lock is one word that changes in atomic
//! steps, and one slot, in which the value lies while nobody holds it; `docs/THREADS.md` explains both.
#![tactic(auto)]

mod busy;
mod held;
mod kept;
mod logged;
mod pass;
mod rule;
mod turn;
pub mod view;

pub use busy::Busy;
pub use held::Held;
pub use logged::Logged;
pub use pass::Pass;
pub use turn::Turn;
