//! A schedule that goes wrong, in lines.
use crate::channel::Channel;
use core_base::ListQueues;
use lot_behaviour::{follow_behaviour, is_fit};
use lot_text::{Name, Page, print_step};
use std::io;

// The lines before the turns.
const HEAD: &[u8] = b"threads 3\nlock jobs mutex\nlock filled condvar\nlock emptied condvar\n";

fn names() -> Option<[Name; 3]> {
    let jobs = Name::from_word(b"jobs")?;
    let filled = Name::from_word(b"filled")?;
    let emptied = Name::from_word(b"emptied")?;
    Some([jobs, filled, emptied])
}

/// Prints the steps that some moves take, as `lotsim replay` reads them.
pub fn print_schedule(rt: &HostRuntime, channel: &Channel, moves: &[usize]) -> io::Result<()> {
    if !is_fit(channel) {
        return Ok(());
    }
    let Ok(Some(run)) = follow_behaviour::<ListQueues, _>(rt.alloc(), channel, moves) else {
        return println!(rt; "memory was refused for the schedule");
    };
    let Some(names) = names() else {
        return Ok(());
    };
    let mut page = Page::new();
    let mut writer = io::writer(rt);
    page.put(&mut writer, HEAD);
    for step in &run.steps {
        print_step(&mut page, &mut writer, &names, *step);
        page.put(&mut writer, b"\n");
    }
    page.put(&mut writer, b"show\n");
    page.finish(&mut writer);
    if page.is_lost() {
        return Err(io::Error::from(io::ErrorKind::WriteZero));
    }
    Ok(())
}
