//! A section that is left with the token of another thread.
use super::{check_eq, lot_of, ticket_of};
use parking_lot_core::{Keys, Note, WrongToken};

#[test]
fn a_section_is_not_left_with_another_token(rt: HostRuntime) {
    let (lot, mut token, mut others) = lot_of(&rt, rt.alloc(), 1, 2);
    let mut another = ticket_of(&rt, &lot, &mut others).enter();
    let section = lot.enter(&rt, &mut token, Keys::One(0));
    let left = section.leave(&rt, &mut another, Note::Normal);
    check_eq(&rt, left, Err(WrongToken));
    // The section's bucket is free again.
    check_eq(&rt, lot.queued(&rt, &mut another, 0), 0);
    drop(another.leave());
    drop(token.leave());
}
