mod walks;

use std::fmt::Debug;
use std::process::Abort;

// Compares what was found with what was wanted. All tests share this one assertion, since each is
// proved where it stands.
fn check_eq<T: PartialEq + Debug + Drop>(rt: &impl Abort, found: T, wanted: T) {
    assert_eq!(rt; found, wanted);
}
