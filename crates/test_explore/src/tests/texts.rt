//! Texts that are no programs, with the line and the word that are named.

use super::check_eq;
use lot_program_text::{TextError, parse};
use std::alloc::Global;
use std::process::Abort;
use std::test::Fail;

/// Texts, the line that is wrong, and its word: none where the line is too short.
const TEXTS: &[(&str, u32, &str)] = &[
    ("", 1, ""),
    ("lock m mutex\n", 2, ""),
    ("lock m mutex\nthreads 2\n", 2, "threads"),
    ("hello\n", 1, "hello"),
    ("thread 0\n", 1, "0"),
    ("thread\n", 1, ""),
    ("thread a 9\n", 1, "9"),
    ("thread a 0\n", 1, "0"),
    ("thread a 2 3\n", 1, "3"),
    ("thread a 5\nthread b 4\n", 2, "b"),
    ("thread a\nthread a\n", 2, "a"),
    ("lock a mutex\nthread a\n", 2, "a"),
    ("threads 2\nthread a\n", 2, "a"),
    ("lock r rwlock 1\nthread a 2\n", 1, "r"),
    ("thread a 2\nends a\n", 2, "a"),
    ("thread a 2\nends a 3\n", 2, "a"),
    ("thread a\nends a 1\n", 2, "1"),
    ("thread a\nends 0\n", 2, "0"),
    (
        "var x 0\nthread a 2\nset x 1\nnever a 1 at 3 a 1 at 3\n",
        4,
        "a",
    ),
    (
        "var x 0\nthread a 2\nset x 1\nnever a 1 at 3 a 2 at 4\n",
        4,
        "4",
    ),
    ("const c\n", 1, ""),
    ("const c d\n", 1, "d"),
    ("const c 1\nvar c 1\n", 2, "c"),
    ("const c 4294967296\nvar x c\n", 2, "c"),
    ("var x 0\nown y 0\n", 2, "own"),
    ("var x 0\nthread a\nset x 1\nown y 0\n", 4, "own"),
    ("var x 0\nthread a\nown x 0\n", 3, "x"),
    ("thread a\nown x 0\nown x 0\n", 3, "x"),
    ("thread a\nown x 0\nthread b\nset x 1\n", 4, "x"),
    ("thread a\nown x 0\nalways x = 0\n", 3, "x"),
    ("thread a\nbreak\n", 2, "break"),
    (
        "lock o once\nthread a\nloop\ncall_once o\nbreak\nok\nend\n",
        5,
        "break",
    ),
    ("thread a\nloop\nbreak 1\nend\n", 3, "1"),
    ("var x 0\nthread a\nassert x = 1 and\n", 3, ""),
    ("var x 0\nthread a\nassert x = 1 or y = 1\n", 3, "y"),
    ("var x 0\nthread a\nassert x = 1 xor x = 2\n", 3, "xor"),
    ("threads\n", 1, ""),
    ("threads 0\n", 1, "0"),
    ("threads 9\n", 1, "9"),
    ("threads 2 3\n", 1, "3"),
    ("threads 2\nlock m mutexx\n", 2, "mutexx"),
    ("threads 2\nlock m semaphore\n", 2, "semaphore"),
    ("threads 2\nlock m mutex\nlock m mutex\n", 3, "m"),
    ("threads 2\nvar x\n", 2, ""),
    ("threads 2\nvar x 4294967296\n", 2, "4294967296"),
    ("threads 2\nvar x y\n", 2, "y"),
    ("threads 2\nlock m mutex\nlock m2\n", 3, ""),
    ("threads 2\nlock m mutex\nlock m\n", 3, ""),
    ("threads 2\nset x 1\n", 2, "set"),
    ("threads 2\nthread 2\n", 2, "2"),
    ("threads 2\nthread\n", 2, ""),
    ("threads 2\nlock m mutex\nthread 0\nlock n\n", 4, "n"),
    ("threads 2\nlock m mutex\nthread 0\nlocks m\n", 4, "locks"),
    ("threads 2\nlock m mutex\nthread 0\nwait m m\n", 4, "wait"),
    ("threads 2\nvar x 0\nthread 0\nassert x ~ 1\n", 4, "~"),
    ("threads 2\nvar x 0\nthread 0\nassert y = 1\n", 4, "y"),
    ("threads 2\nthread 0\nend\n", 3, "end"),
    ("threads 2\nthread 0\nelse\n", 3, "else"),
    ("threads 2\nthread 0\nok\n", 3, "ok"),
    ("threads 2\nthread 0\nor\n", 3, "or"),
    ("threads 2\nthread 0\neither x\n", 3, "x"),
    ("threads 2\nthread 0\neither\nend\n", 4, "end"),
    ("threads 2\nthread 0\neither\nelse\n", 4, "else"),
    ("threads 2\nthread 0\neither\nor\n", 3, ""),
    ("threads 2\nthread 0\neither\nor x\n", 4, "or"),
    ("threads 2\nvar x 0\nthread 0\nloop\nadd x 1\n", 4, ""),
    ("threads 2\nvar x 0\nthread 0\nset x 1 2\n", 4, "2"),
    ("threads 1\nvar x 0\nalways x 1\n", 3, "1"),
    ("threads 1\nvar x 0\nfinally y = 1\n", 3, "y"),
    ("threads 1\nvar x 0\nalways x = 1 2\n", 3, "2"),
    ("threads 1\nvar x 0\nthread 0\nloop\nalways x = 0\n", 4, ""),
    ("threads 1\nvar x 0\nalways x = 0\nthread 0\n", 4, "thread"),
    ("threads 2\nends\n", 2, ""),
    ("threads 2\nends 2\n", 2, "2"),
    ("threads 2\nends 0 1\n", 2, "1"),
    ("threads 2\nends 0\nthread 0\n", 3, "thread"),
    (
        "threads 1\nvar x 0\nalways x = 0\nlock m mutex\n",
        4,
        "lock",
    ),
    (
        "threads 2\nvar x 0\nthread 0 1\nset x 1\nnever 0 at 4\n",
        5,
        "",
    ),
    (
        "threads 2\nvar x 0\nthread 0 1\nset x 1\nnever 0 at 4 2 at 4\n",
        5,
        "2",
    ),
    (
        "threads 2\nvar x 0\nthread 0 1\nset x 1\nnever 0 at 4 0 at 4\n",
        5,
        "0",
    ),
    (
        "threads 2\nvar x 0\nthread 0 1\nset x 1\nnever 0 at 3 1 at 4\n",
        5,
        "3",
    ),
    (
        "threads 2\nvar x 0\nthread 0\nset x 1\nnever 0 at 4 1 at 4\n",
        5,
        "4",
    ),
    (
        "threads 2\nvar x 0\nthread 0 1\nset x 1\nnever 0 in 4 1 at 4\n",
        5,
        "in",
    ),
    (
        "threads 2\nvar x 0\nthread 0 1\nset x 1\nnever 0 at 4 1 at 4 2\n",
        5,
        "2",
    ),
    ("threads 2\nthread 0\nthread 1 0\n", 3, "0"),
    (
        "threads 1\nlock m mutex\nthread 0\ntry_lock m\nif ok\nend\n",
        5,
        "ok",
    ),
    (
        "threads 1\nlock m mutex\nthread 0\nif yes\nend\ntry_lock m\n",
        4,
        "yes",
    ),
    (
        "threads 1\nlock o once\nthread 0\ncall_once o\nok\nif failed\nend\n",
        6,
        "failed",
    ),
    (
        "threads 1\nlock c condvar\nthread 0\nnotify_all c\nif no\nend\n",
        5,
        "no",
    ),
    ("threads 1\nlock m mutex\nthread 0\n\u{1}\n", 4, "\\u{1}"),
];

/// Asserts that a text is wrong on a line, at a word.
fn is_wrong_at(rt: &impl Abort, alloc: Global, text: &str, line: u32, word: &str) {
    match parse(alloc, text) {
        Err(
            TextError::Malformed {
                line: found,
                word: at,
                expected: _,
            },
        ) => {
            check_eq(rt, found, line);
            check_eq(rt, at.as_str(), word);
        }
        Err(
            TextError::Short {
                line: found,
                expected: _,
            },
        ) => {
            check_eq(rt, found, line);
            check_eq(rt, "", word);
        }
        Err(
            TextError::Unanswered {
                line: found,
                answer,
                can: _,
            },
        ) => {
            check_eq(rt, found, line);
            check_eq(rt, answer, word);
        }
        Err(
            TextError::Twice {
                line: found,
                thread: _,
                first: _,
            },
        ) => check_eq(rt, found, line),
        Ok(_) => check_eq(rt, "a program", text),
        Err(TextError::NoMemory) => check_eq(rt, "no memory", text),
    }
}

#[test]
fn a_text_that_is_no_program_is_wrong_at_a_word(rt: HostRuntime) {
    for (text, line, word) in TEXTS {
        is_wrong_at(&rt, rt.alloc(), text, *line, word);
    }
}
