//! A picker that picks everybody.
ghost use Rattle.core_base.specs.declared.picks.Pick.TheVariants.{Unpark};

use core_base::{Pick, Picker, Want};

/// Picks each waiter that it is asked about.
#[derive(Drop)]
pub(crate) struct Everybody;

impl Picker for Everybody {
    ghost answer = { λ _ _. Unpark };

    ghost next = { λ everybody _. everybody };

    fn pick(&mut self, _want: Want) -> Pick {
        Pick::Unpark
    }
}
