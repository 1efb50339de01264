//! Worked images of version 2 as bytes, and what becomes of one of version 1.
use crate::image_bytes::{ONE_TASK, has_forms, reads, spells};
use image_codec::{AlreadyNew, Form, Image, Known, Version, decode, upgrade};
use osek_standard::Task;
use osek_values::{ResNo, Status, TaskNo};
use std::alloc::Global;
use std::test::*;

/// One task, which terminates.
const ONE_TASK_2: [u8; 96] = [
    0x4f, 0x53, 0x45, 0x4b, 0x46, 0x49, 0x54, 0x02, 0x00, 0x01, 0x00, 0x00, 0x00, 0x01, 0x01, 0x00,
    0x02, 0x02, 0x54, 0x31, 0x00, 0x01, 0x01, 0x00, 0x00, 0x00, 0x00, 0x00, 0x00, 0x00, 0x00, 0x01,
    0x00, 0x00, 0x00, 0x02, 0x01, 0xff, 0x0d, 0x52, 0x45, 0x53, 0x5f, 0x53, 0x43, 0x48, 0x45, 0x44,
    0x55, 0x4c, 0x45, 0x52, 0x00, 0x00, 0x00, 0x03, 0x00, 0x00, 0x00, 0x10, 0x4f, 0x53, 0x44, 0x45,
    0x46, 0x41, 0x55, 0x4c, 0x54, 0x41, 0x50, 0x50, 0x4d, 0x4f, 0x44, 0x45, 0x04, 0x00, 0x00, 0x00,
    0x00, 0x01, 0x00, 0x01, 0x02, 0xff, 0x09, 0x16, 0x00, 0x00, 0x00, 0x00, 0x01, 0x00, 0x00, 0xff,
];

/// A task that activates a higher one.
const TWO_TASKS_2: [u8; 149] = [
    0x4f, 0x53, 0x45, 0x4b, 0x46, 0x49, 0x54, 0x02, 0x00, 0x02, 0x00, 0x00, 0x00, 0x01, 0x01, 0x00,
    0x05, 0x02, 0x54, 0x31, 0x00, 0x01, 0x01, 0x00, 0x00, 0x00, 0x00, 0x00, 0x00, 0x00, 0x00, 0x01,
    0x00, 0x00, 0x00, 0x03, 0x01, 0xff, 0x02, 0x54, 0x32, 0x00, 0x02, 0x01, 0x00, 0x00, 0x00, 0x00,
    0x00, 0x00, 0x00, 0x00, 0x00, 0x00, 0x03, 0x00, 0x02, 0x01, 0xff, 0x0d, 0x52, 0x45, 0x53, 0x5f,
    0x53, 0x43, 0x48, 0x45, 0x44, 0x55, 0x4c, 0x45, 0x52, 0x00, 0x00, 0x00, 0x05, 0x00, 0x00, 0x00,
    0x10, 0x4f, 0x53, 0x44, 0x45, 0x46, 0x41, 0x55, 0x4c, 0x54, 0x41, 0x50, 0x50, 0x4d, 0x4f, 0x44,
    0x45, 0x03, 0x00, 0x00, 0x00, 0x00, 0x01, 0x01, 0x00, 0x01, 0x02, 0x01, 0x00, 0x04, 0x00, 0x00,
    0x00, 0x00, 0x01, 0x00, 0x02, 0x02, 0xff, 0x09, 0x16, 0x00, 0x00, 0x00, 0x00, 0x01, 0x00, 0x00,
    0xff, 0x04, 0x00, 0x00, 0x00, 0x00, 0x02, 0x00, 0x04, 0x02, 0x00, 0x09, 0x16, 0x00, 0x00, 0x00,
    0x00, 0x02, 0x00, 0x00, 0xff,
];

/// What is known of the statuses at these places of `ONE_TASK_2`, and that nothing is.
const KNOWN_PLACES: [usize; 2] = [86, 95];

/// Whether this is known of the statuses of the sites, one after the other.
fn has_known(image: &Image, known: &[Known]) -> bool {
    image.sites.len() == known.len()
        && image.sites.as_slice().iter().zip(known).all(|(site, known)| match site {
            Some(site) => site.known == *known,
            None => false,
        })
}

fn is_of_one_task(image: &Image) -> bool {
    image.version == Version::Two
        && has_forms(image, &[Form::Direct(None), Form::Never])
        && has_known(image, &[Known::Always(None), Known::Any])
}

#[test]
fn one_task_in_version_2(rt: HostRuntime) {
    assert!(rt; reads(rt.alloc(), &ONE_TASK_2, is_of_one_task));
}

fn is_of_two_tasks(image: &Image) -> bool {
    let forms = [
        Form::Direct(Some(TaskNo(1))),
        Form::Direct(None),
        Form::Never,
        Form::Direct(Some(TaskNo(0))),
        Form::Never,
    ];
    let known = [
        Known::Always(Some(Status::Ok)),
        Known::Always(None),
        Known::Any,
        Known::Always(None),
        Known::Any,
    ];
    image.version == Version::Two && has_forms(image, &forms) && has_known(image, &known)
}

#[test]
fn two_tasks_in_version_2(rt: HostRuntime) {
    assert!(rt; reads(rt.alloc(), &TWO_TASKS_2, is_of_two_tasks));
}

/// One task in version 2, with nothing known of its statuses.
fn one_task_upgraded() -> [u8; 96] {
    let mut bytes = ONE_TASK_2;
    for at in KNOWN_PLACES {
        if at < 96 {
            bytes[at] = 0xff;
        }
    }
    bytes
}

/// Whether an image is upgraded once, and not a second time, and is spelled by the bytes then.
fn is_upgraded_once(alloc: Global, mut image: Image, bytes: &[u8]) -> bool {
    let first = upgrade(&mut image);
    let after_first = spells(alloc, &image, bytes);
    let second = upgrade(&mut image);
    let after_second = spells(alloc, &image, bytes);
    drop(image);
    first == Ok(()) && after_first && second == Err(AlreadyNew) && after_second
}

/// The same of bytes.
fn are_upgraded_once(alloc: Global, old: &[u8], new: &[u8]) -> bool {
    match decode(alloc, old) {
        Ok(image) => is_upgraded_once(alloc, image, new),
        Err(_) => false,
    }
}

#[test]
fn an_upgrade(rt: HostRuntime) {
    assert!(rt; are_upgraded_once(rt.alloc(), &ONE_TASK, &one_task_upgraded()));
}

/// Tasks of one priority, of which the first takes two activations and the second is inside RES_SCHEDULER.
fn of_one_priority() -> [u8; 149] {
    let mut bytes = TWO_TASKS_2;
    bytes[36] = 2;
    bytes[42] = 1;
    bytes[58] = 0;
    bytes[77] = 1;
    bytes
}

fn are_of_one_priority(tasks: &[Task]) -> bool {
    tasks.len() == 2
        && tasks[0].priority == tasks[1].priority
        && tasks[0].activation == 2
        && tasks[0].internal.is_none()
        && tasks[1].activation == 1
        && tasks[1].internal == Some(ResNo(0))
}

fn is_of_one_priority(image: &Image) -> bool {
    are_of_one_priority(image.app.tasks.as_slice())
}

#[test]
fn shared_priorities_activations_and_an_internal_resource(rt: HostRuntime) {
    assert!(rt; reads(rt.alloc(), &of_one_priority(), is_of_one_priority));
}

/// An ISR of priority 3, which takes a resource that keeps it out, and ends.
const ONE_ISR_2: [u8; 53] = [
    0x4f, 0x53, 0x45, 0x4b, 0x46, 0x49, 0x54, 0x02, 0x00, 0x00, 0x01, 0x00, 0x00, 0x01, 0x01, 0x00,
    0x02, 0x01, 0x49, 0x00, 0x00, 0x00, 0x02, 0x03, 0x01, 0x52, 0x00, 0x00, 0x00, 0x01, 0x00, 0x00,
    0x04, 0x01, 0x4d, 0x07, 0x00, 0x00, 0x00, 0x00, 0x01, 0x00, 0x00, 0x01, 0x17, 0x00, 0x00, 0x00,
    0x00, 0x01, 0x01, 0x00, 0xff,
];

/// The greatest priority and interrupt ceiling.
fn of_the_greatest_level() -> [u8; 53] {
    let mut bytes = ONE_ISR_2;
    bytes[23] = 255;
    bytes[31] = 1;
    bytes[32] = 0;
    bytes
}

fn has_levels(image: &Image, priority: u8, ceiling: u16) -> bool {
    image.app.isrs.len() == 1
        && image.app.isrs.at(0).priority == priority
        && image.app.resources.len() == 1
        && image.app.resources.at(0).interrupt_ceiling == ceiling
}

fn is_of_one_isr(image: &Image) -> bool {
    has_levels(image, 3, 4)
}

fn is_of_the_greatest_level(image: &Image) -> bool {
    has_levels(image, 255, 256)
}

#[test]
fn an_isr_with_a_resource(rt: HostRuntime) {
    let alloc = rt.alloc();
    assert!(rt; reads(alloc, &ONE_ISR_2, is_of_one_isr));
    assert!(rt; reads(alloc, &of_the_greatest_level(), is_of_the_greatest_level));
}
