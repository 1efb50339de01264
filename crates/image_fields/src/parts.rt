//! The header and the tables of an image while it is read.
use image_model::Version;
use osek_standard::{Alarm, Counter, Isr, Resource, Task};
use osek_values::{BlockNo, HookSet, Name, Seq};

/// The version, the hooks, how many entries each table has, and how many blocks there are.
#[derive(Clone, Copy)]
pub struct Header {
    pub version: Version,
    pub hooks: HookSet,
    pub tasks: u8,
    pub isrs: u8,
    pub counters: u8,
    pub alarms: u8,
    pub resources: u8,
    pub modes: u8,
    pub blocks: u16,
}

/// The blocks of an owner: the `count` blocks from `first` on.
#[derive(Clone, Copy)]
pub struct Range {
    pub first: BlockNo,
    pub count: u16,
}

/// The tables of an application.
#[derive(Drop)]
pub struct Tables {
    pub tasks: Seq<Task>,
    pub isrs: Seq<Isr>,
    pub counters: Seq<Counter>,
    pub alarms: Seq<Alarm>,
    pub resources: Seq<Resource>,
    pub modes: Seq<Name>,
}
