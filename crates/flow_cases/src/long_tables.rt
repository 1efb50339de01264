//! A least table at the limit of its bytes, and one beyond it.
use crate::table_bytes::least_bytes;
use front_end::{TextError, read_app, read_system};
use osek_standard::App;
use osek_values::Memory;
use std::alloc::Global;
use std::marker::Brand;
use std::sync::ledger::Blank;
use std::test::*;
use table_codec::WriteFault;

/// Seven resources, which a task takes in any order and never gives back: its stack is one of 13,700, which hold 82,201
/// resources in all, at each block of its loop.
const OIL: &[u8] =
    b"CPU c { OS os { USERESSCHEDULER = FALSE; }; RESOURCE A; RESOURCE B; RESOURCE C; RESOURCE D; RESOURCE E; RESOURCE F; RESOURCE G; TASK T { PRIORITY = 1; AUTOSTART = TRUE; RESOURCE = A; RESOURCE = B; RESOURCE = C; RESOURCE = D; RESOURCE = E; RESOURCE = F; RESOURCE = G; }; };";

const BEGINS: &[u8] =
    b"TASK(T) { while (1) { if (?) { GetResource(A); } if (?) { GetResource(B); } if (?) { GetResource(C); } if (?) { GetResource(D); } if (?) { GetResource(E); } if (?) { GetResource(F); } if (?) { GetResource(G); } ";

/// The bytes of the table where the loop has 87 blocks more: magic, halted, idle, 102 blocks in the loop, and the end. A
/// block has a byte and four for the number of values, six for each of these, and one for each resource.
const SIZE: usize = 8 + 1 + 1 + 102 * (1 + 4 + 6 * 13_700 + 82_201) + 1;

/// The code whose loop has so many blocks more.
fn code_with(alloc: Global, blocks: usize) -> Result<Vec<u8>, Memory> {
    let mut text = Vec::from_slice(alloc, BEGINS)?;
    for _ in 0..blocks {
        text.extend_from_slice(b"work 1; ")?;
    }
    text.extend_from_slice(b"} }\n")?;
    Ok(text)
}

fn app_with(alloc: Global, blocks: usize) -> Result<App, TextError> {
    let code = code_with(alloc, blocks)?;
    let system = read_system(alloc, OIL)?;
    read_app(alloc, system, code.as_slice())
}

/// How many bytes the least table has, or why it isn't written.
fn written(alloc: Global, blocks: usize) -> Result<Result<usize, WriteFault>, TextError> {
    let app = app_with(alloc, blocks)?;
    let size = match least_bytes::<Brand>(alloc, &app, Blank::new(1)) {
        Ok(bytes) => Ok(bytes.len()),
        Err(fault) => Err(fault),
    };
    drop(app);
    Ok(size)
}

fn has_size(answer: Result<Result<usize, WriteFault>, TextError>, size: usize) -> bool {
    match answer {
        Ok(Ok(bytes)) => bytes == size,
        _ => false,
    }
}

fn is_too_long(answer: Result<Result<usize, WriteFault>, TextError>) -> bool {
    matches!(answer, Ok(Err(WriteFault::TooLong)))
}

#[test]
fn a_table_at_its_limit_and_one_beyond_it(rt: HostRuntime) {
    assert!(rt; has_size(written(rt.alloc(), 87), SIZE));
    assert!(rt; is_too_long(written(rt.alloc(), 88)));
}
