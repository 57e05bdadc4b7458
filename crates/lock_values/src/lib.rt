//! Values of locks. A value lies in a plain place, and the right to a lock opens it: its owner alone
//! writes it, and owners beside others read it. A projection finds a part of a value for a guard.
//! Rights are seats of the lot's table: there is no lock, no word and no load.
#![tactic(auto)]

pub mod calls;
pub mod errors;
mod lends;
pub mod mapped;
mod place;
pub mod project;
pub mod shown;
pub mod shows;
pub mod then;
pub mod unlocks;

pub use errors::ThenError;
pub use mapped::Mapped;
pub use place::{NamesPlace, Open, Place, Seen};
pub use project::Project;
pub use shown::{LockName, Shown};
pub use shows::{Shows, ShowsMut};
pub use then::Then;
pub use unlocks::{Unlocks, UnlocksFair};
