// replay: holds the library to the lists in data/ and the lines that the Rust wrote for them. Writes a line for each
// pack, up to its first list that differs.
#![tactic(auto)]

mod list;
mod pack;
mod recorded;

use list::Buffers;
use pack::{Input, Pack};
use recorded::Fault;
use std::fs::File;
use std::io;
use std::rt::Files;

// The lists of a pack that agree, and the bytes of their lines.
#[derive(Clone, Copy)]
struct Total {
    lists: usize,
    bytes: usize,
}

// The list that does not agree, counted from 1.
#[derive(Clone, Copy)]
struct Failed {
    list: usize,
    fault: Fault,
}

// Replays the list that comes next, and answers the bytes of its lines; none at the end of the pack.
fn replay_next(pack: &mut Pack, buffers: &mut Buffers) -> Result<Option<usize>, Fault> {
    let mut bytes = [0u8; 4];
    let Some(length) = pack::next_length(&mut pack.calls, &mut bytes)? else {
        return Ok(None);
    };
    let recorded = pack::lines_behind(&mut pack.lines, length)?;
    let agreed = list::replay(pack, length, recorded, buffers)?;
    Ok(Some(agreed))
}

// Replays all lists. A proved loop has to end, and nothing says that a file does: no run takes so many turns.
fn replay_all(pack: &mut Pack, buffers: &mut Buffers) -> Result<Total, Failed> {
    let mut total = Total { lists: 0, bytes: 0 };
    for _ in 0..u64::MAX {
        let list = total.lists.saturating_add(1);
        let next = replay_next(pack, buffers);
        let Some(bytes) = next.map_err(|fault| Failed { list, fault })? else {
            return Ok(total);
        };
        total = Total {
            lists: list,
            bytes: total.bytes.saturating_add(bytes),
        };
    }
    Ok(total)
}

// Replays a pack, and writes its line. One file reads the calls, the other the lines, so that no more of a pack is in
// memory than the buffers hold. A file that can't be read on ends there.
fn replay_pack(rt: &(impl Files<File = File> + Print), name: &str) -> io::Result<()> {
    let (Ok(calls), Ok(lines)) = (File::open(rt, name), File::open(rt, name)) else {
        return println!(rt; "{name}: missing");
    };
    let mut pack = Pack {
        calls: Input::new(calls),
        lines: Input::new(lines),
    };
    let mut buffers = Buffers {
        calls: [0; 4096],
        out: [0; 4096],
        want: [0; 4096],
    };
    match replay_all(&mut pack, &mut buffers) {
        Ok(Total { lists, bytes }) => {
            println!(rt; "{name} agrees. Lists: {lists}, bytes of lines: {bytes}")
        }
        Err(Failed { list, fault }) => {
            println!(rt; "{name}: list {list} {fault} bytes of its lines")
        }
    }
}

// The packs that have to agree, and four that must not, so that a replay that finds nothing shows. The second list of
// each has a byte of its lines changed, lacks its last line, has a line too many, or is cut.
const PACKS: [&str; 8] = [
    "named.pack",
    "counts.pack",
    "random.pack",
    "manual.pack",
    "wrong.pack",
    "short.pack",
    "left.pack",
    "cut.pack",
];

fn main(rt: HostRuntime) -> io::Result<()> {
    for name in PACKS {
        replay_pack(&rt, name)?;
    }
    Ok(())
}
