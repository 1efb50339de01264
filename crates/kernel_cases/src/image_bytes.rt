//! Worked images as bytes.
use image_codec::{Form, Image, decode, encode, form, general};
use osek_standard::{Call, Kind, PlainService, Schedule, Task, TaskService};
use osek_values::{BlockNo, TaskNo};
use std::alloc::Global;
use std::test::*;

/// One task, which terminates.
pub const ONE_TASK: [u8; 89] = [
    0x4f, 0x53, 0x45, 0x4b, 0x46, 0x49, 0x54, 0x01, 0x00, 0x01, 0x00, 0x00, 0x00, 0x01, 0x01, 0x00,
    0x02, 0x02, 0x54, 0x31, 0x00, 0x01, 0x01, 0x00, 0x00, 0x00, 0x00, 0x00, 0x00, 0x00, 0x00, 0x01,
    0x00, 0x00, 0x00, 0x02, 0x0d, 0x52, 0x45, 0x53, 0x5f, 0x53, 0x43, 0x48, 0x45, 0x44, 0x55, 0x4c,
    0x45, 0x52, 0x00, 0x00, 0x00, 0x03, 0x10, 0x4f, 0x53, 0x44, 0x45, 0x46, 0x41, 0x55, 0x4c, 0x54,
    0x41, 0x50, 0x50, 0x4d, 0x4f, 0x44, 0x45, 0x04, 0x00, 0x00, 0x00, 0x00, 0x01, 0x00, 0x01, 0x02,
    0xff, 0x16, 0x00, 0x00, 0x00, 0x00, 0x01, 0x00, 0x00,
];

/// A task that activates a higher one.
const TWO_TASKS: [u8; 137] = [
    0x4f, 0x53, 0x45, 0x4b, 0x46, 0x49, 0x54, 0x01, 0x00, 0x02, 0x00, 0x00, 0x00, 0x01, 0x01, 0x00,
    0x05, 0x02, 0x54, 0x31, 0x00, 0x01, 0x01, 0x00, 0x00, 0x00, 0x00, 0x00, 0x00, 0x00, 0x00, 0x01,
    0x00, 0x00, 0x00, 0x03, 0x02, 0x54, 0x32, 0x00, 0x02, 0x01, 0x00, 0x00, 0x00, 0x00, 0x00, 0x00,
    0x00, 0x00, 0x00, 0x00, 0x03, 0x00, 0x02, 0x0d, 0x52, 0x45, 0x53, 0x5f, 0x53, 0x43, 0x48, 0x45,
    0x44, 0x55, 0x4c, 0x45, 0x52, 0x00, 0x00, 0x00, 0x05, 0x10, 0x4f, 0x53, 0x44, 0x45, 0x46, 0x41,
    0x55, 0x4c, 0x54, 0x41, 0x50, 0x50, 0x4d, 0x4f, 0x44, 0x45, 0x03, 0x00, 0x00, 0x00, 0x00, 0x01,
    0x01, 0x00, 0x01, 0x02, 0x01, 0x04, 0x00, 0x00, 0x00, 0x00, 0x01, 0x00, 0x02, 0x02, 0xff, 0x16,
    0x00, 0x00, 0x00, 0x00, 0x01, 0x00, 0x00, 0x04, 0x00, 0x00, 0x00, 0x00, 0x02, 0x00, 0x04, 0x02,
    0x00, 0x16, 0x00, 0x00, 0x00, 0x00, 0x02, 0x00, 0x00,
];

/// Whether the bytes are the image's.
pub fn spells(alloc: Global, image: &Image, bytes: &[u8]) -> bool {
    encode(alloc, image).is_ok_and(|found| found.as_slice() == bytes)
}

fn is_first_task(task: &Task) -> bool {
    task.name.as_bytes() == b"T1".as_slice()
        && task.priority == 1
        && task.schedule == Schedule::Full
}

/// Whether the image is that of one task with the forms that its one path dictates.
fn is_of_one_task(image: &Image) -> bool {
    let forms = [Form::Direct(None), Form::Never];
    image.app.tasks.len() == 1
        && image.app.blocks.len() == 2
        && image.app.tasks.as_slice().iter().all(is_first_task)
        && has_forms(image, &forms)
}

/// Whether the sites have these forms, one after the other.
pub fn has_forms(image: &Image, forms: &[Form]) -> bool {
    image.sites.len() == forms.len()
        && image.sites.as_slice().iter().zip(forms).all(|(site, form)| match site {
            Some(site) => site.form == *form,
            None => false,
        })
}

/// Whether bytes are an image that is so, and are what it is spelled with.
pub fn reads<T: Fn(&Image) -> bool>(alloc: Global, bytes: &[u8], is_so: T) -> bool
    requires { T.IsAlwaysCallable is_so }
{
    match decode(alloc, bytes) {
        Ok(image) => {
            let right = is_so(&image) && spells(alloc, &image, bytes);
            drop(image);
            right
        }
        Err(_) => false,
    }
}

#[test]
fn one_task(rt: HostRuntime) {
    assert!(rt; reads(rt.alloc(), &ONE_TASK, is_of_one_task));
}

/// What the blocks of two tasks do.
const KINDS: [Kind; 5] = [
    Kind::Call(Call::Task(TaskService::ActivateTask, TaskNo(1))),
    Kind::Call(Call::Plain(PlainService::TerminateTask)),
    Kind::TaskEnd,
    Kind::Call(Call::Plain(PlainService::TerminateTask)),
    Kind::TaskEnd,
];

fn is_of_two_tasks(image: &Image) -> bool {
    image.app.tasks.len() == 2
        && image.app.blocks.len() == 5
        && image
            .app
            .blocks
            .as_slice()
            .iter()
            .zip(&KINDS)
            .all(|(block, kind)| block.kind == *kind)
}

#[test]
fn two_tasks(rt: HostRuntime) {
    assert!(rt; reads(rt.alloc(), &TWO_TASKS, is_of_two_tasks));
}

/// An image with general forms in place of its own.
fn made_general(alloc: Global, image: Image) -> Option<Image> {
    general(alloc, image.app).ok()
}

/// Whether the first block has no form, and the second the general one.
fn is_general_behind_work(image: &Image) -> bool {
    image.app.blocks.len() == 2
        && form(image, BlockNo(0)) == None
        && form(image, BlockNo(1)) == Some(Form::General)
}

fn is_so_made_general(alloc: Global, image: Image) -> bool {
    match made_general(alloc, image) {
        Some(image) => {
            let right = is_general_behind_work(&image);
            drop(image);
            right
        }
        None => false,
    }
}

/// The same of bytes.
fn are_so_made_general(alloc: Global, bytes: &[u8]) -> bool {
    match decode(alloc, bytes) {
        Ok(image) => is_so_made_general(alloc, image),
        Err(_) => false,
    }
}

#[test]
fn general_forms(rt: HostRuntime) {
    // TerminateTask made `work 1`, which is no site: its next block is the operand, and its form the next block
    let mut bytes = ONE_TASK;
    bytes[71] = 0;
    bytes[79] = 0;
    bytes[80] = 1;
    assert!(rt; are_so_made_general(rt.alloc(), &bytes));
}
