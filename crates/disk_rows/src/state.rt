//! What the rows work on, and the calls that use it.

use crate::call::{Any, ChangeKind, OnDisk, OnImage};
use crate::lists::List;
use crate::{disks, images, lists, shown, stops};
use cpm_disk::{Disk, faults_of};
use cpm_image::{Failing, MemoryImage};
use row_text::Row;
use std::alloc::Global;

/// An image, or the disk mounted from it; the image as it was before; and a list of entries.
#[derive(Drop)]
pub(crate) struct State {
    image: Option<MemoryImage>,
    disk: Option<Disk<Failing>>,
    before: Option<MemoryImage>,
    pub(crate) list: List,
}

impl State {
    pub(crate) fn new(alloc: Global) -> State {
        State {
            image: None,
            disk: None,
            before: None,
            list: lists::empty_list(alloc),
        }
    }
}

/// Mounts an image.
fn answer_mounted(row: &mut Row, state: &mut State, image: MemoryImage) {
    state.before = stops::copy_of(row, &image);
    let device = disks::device_of(row, image);
    match Disk::mount(row.alloc(), device) {
        Ok(disk) => {
            state.disk = Some(disk);
            write!(row, " mounted");
        }
        Err((fault, device)) => {
            state.image = Some(device.into_image());
            write!(row, " {fault:?}");
        }
    }
}

/// Prints the faults of an image's directory.
fn answer_faults(row: &mut Row, state: &mut State, image: MemoryImage) {
    let mut device = disks::device_of(row, image);
    shown::show_faults(row, faults_of(row.alloc(), &mut device));
    state.image = Some(device.into_image());
}

/// Makes a blank image.
fn begin_image(row: &mut Row, state: &mut State) {
    let kind = shown::kind_of(row);
    state.disk = None;
    state.image = MemoryImage::blank(row.alloc(), kind).ok();
}

/// Makes the disk an image again.
fn unmount(row: &mut Row, state: &mut State) {
    match state.disk.take() {
        Some(disk) => state.image = Some(disk.unmount().into_image()),
        None => row.refuse("no disk"),
    }
}

/// Makes calls that take the image.
fn answer_taken(row: &mut Row, call: Any, state: &mut State) {
    let Some(image) = state.image.take() else {
        return row.refuse("no image");
    };
    match call {
        Any::Mount => answer_mounted(row, state, image),
        _ => answer_faults(row, state, image),
    }
}

/// Compares the image with what it was.
fn answer_changed(row: &mut Row, state: &State) {
    match (state.before.as_ref(), state.image.as_ref()) {
        (Some(before), Some(image)) => images::answer_changed(row, before, image),
        _ => row.refuse("no image"),
    }
}

pub(crate) fn answer_any(row: &mut Row, call: Any, state: &mut State) {
    match call {
        Any::Disk => begin_image(row, state),
        Any::Mount | Any::FaultsOf => answer_taken(row, call, state),
        Any::Unmount => unmount(row, state),
        Any::Changed => answer_changed(row, state),
        Any::Entries => state.list = lists::new_list(row),
    }
}

pub(crate) fn answer_image(row: &mut Row, call: OnImage, state: &mut State) {
    let Some(image) = state.image.as_mut() else {
        return row.refuse("no image");
    };
    match call {
        OnImage::Put => images::put_entry(row, image),
        OnImage::Sector => images::answer_written(row, image),
        OnImage::Sectors => images::answer_range(row, image, false),
        OnImage::Records => images::answer_range(row, image, true),
        OnImage::Stops => stops::answer_stops(row, image),
    }
}

pub(crate) fn answer_disk(row: &mut Row, call: OnDisk, state: &mut State) {
    let Some(disk) = state.disk.as_mut() else {
        return row.refuse("no disk");
    };
    match call {
        OnDisk::Writes => disks::answer_writes(row, disk),
        OnDisk::Reads => disks::answer_reads(row, disk),
        OnDisk::Entry => disks::answer_entry(row, disk),
        OnDisk::Find => disks::answer_found(row, disk),
        OnDisk::Extent => disks::answer_extent(row, disk),
        OnDisk::Size => disks::answer_size(row, disk),
        OnDisk::Usage => disks::answer_usage(row, disk),
        OnDisk::Space => disks::answer_space(row, disk),
        OnDisk::List => disks::answer_list(row, disk),
    }
}

pub(crate) fn answer_change(row: &mut Row, call: ChangeKind, state: &mut State) {
    match state.disk.as_mut() {
        Some(disk) => disks::answer_change(row, call, disk),
        None => row.refuse("no disk"),
    }
}
