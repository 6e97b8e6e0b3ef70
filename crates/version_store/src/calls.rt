//! The calls of a store, and what they answer.
use mvcc_keys::{Blob, Entry, Hlc, Items};
use range_tombstones::Upto;

/// One variant for each call of `Versions`.
#[derive(Drop)]
pub enum VersionCall {
    Put {
        key: Blob,
        at: Hlc,
        value: Blob,
    },
    Delete {
        key: Blob,
        at: Hlc,
    },
    DeleteRange {
        lo: Blob,
        hi: Blob,
        at: Hlc,
    },
    GetAsOf {
        key: Blob,
        t: Hlc,
    },
    ScanAsOf {
        table: u32,
        t: Hlc,
    },
    ScanAfter {
        table: u32,
        t: Hlc,
        after: Option<(Blob, Hlc)>,
        n: usize,
    },
    Events {
        table: u32,
        from: Hlc,
        upto: Upto,
        after: Option<(Blob, Hlc)>,
        n: usize,
    },
    NewestEvents {
        table: u32,
        from: Hlc,
        upto: Upto,
        after: Option<(Blob, Hlc)>,
        n: usize,
    },
    Ranges {
        table: u32,
        from: Hlc,
        upto: Upto,
    },
    Collect {
        table: u32,
        g: Hlc,
    },
    Threshold {
        table: u32,
    },
}

/// What the call of the same name answered.
#[derive(Drop)]
pub enum VersionAnswer {
    Put,
    Delete,
    DeleteRange,
    GetAsOf(Option<Blob>),
    ScanAsOf(Items<Entry>),
    ScanAfter(Items<Entry>),
    Events(Items<Entry>),
    NewestEvents(Items<Entry>),
    Ranges(Items<Entry>),
    Collect,
    Threshold(Hlc),
}
