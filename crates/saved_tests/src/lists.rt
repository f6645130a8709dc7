// Switches and changes of a test, and their numbers.
ghost use Rattle.std.specs.Prelude.{◌≡◌, ◌≤◌, length, map, take, true};
ghost use Rattle.std.specs.List.{list_all};
ghost use Rattle.saved_tests.specs.SavedTests as spec;

use crate::controls::{control_in, is_control};
use crate::numbers::{SavedChange, SavedSwitch};
use arrayvec::ArrayVec;
use lane_controls::{Change, MAX_CHANGES, MAX_SWITCHES, Switch};

const NO_SWITCH: SavedSwitch = SavedSwitch {
    control: 0,
    mask: 0,
    bits: 0,
};

pub const NO_CHANGE: SavedChange = SavedChange {
    switch: NO_SWITCH,
    original: 0,
};

// ---- from numbers

pub fn are_switches(saved: &[SavedSwitch]) -> bool
    ensures { result ≡ list_all spec.is_switch saved.now }
{
    saved.iter().all(|switch| is_control(switch.control))
}

pub fn are_changes(saved: &[SavedChange]) -> bool
    ensures { result ≡ list_all spec.is_change saved.now }
{
    saved.iter().all(|change| is_control(change.switch.control))
}

pub fn switch_in(saved: SavedSwitch) -> Switch
    ensures { result ≡ spec.switch_in saved }
{
    Switch {
        control: control_in(saved.control),
        mask: saved.mask,
        bits: saved.bits,
    }
}

pub fn change_in(saved: SavedChange) -> Change
    ensures { result ≡ spec.change_in saved }
{
    Change {
        switch: switch_in(saved.switch),
        original: saved.original,
    }
}

/// The first of them, so many.
pub fn switches_in(count: u8, saved: &[SavedSwitch; MAX_SWITCHES]) -> ArrayVec<Switch, MAX_SWITCHES>
    requires { count ≤ 16 }
    ensures { result.items ≡ map spec.switch_in (take count saved.now) }
{
    each_switch_in(&saved[..usize::from(count)])
}

fn each_switch_in(saved: &[SavedSwitch]) -> ArrayVec<Switch, MAX_SWITCHES>
    requires { length saved.now ≤ 16 }
    ensures { result.items ≡ map spec.switch_in saved.now }
{
    let mut switches = ArrayVec::new();
    for switch in saved {
        switches.push(switch_in(*switch));
    }
    switches
}

/// The first of them, so many.
pub fn changes_in(count: u8, saved: &[SavedChange; MAX_SWITCHES]) -> ArrayVec<Change, MAX_SWITCHES>
    requires { count ≤ 16 }
    ensures { result.items ≡ spec.changes_in count saved.now }
{
    each_change_in(&saved[..usize::from(count)])
}

fn each_change_in(saved: &[SavedChange]) -> ArrayVec<Change, MAX_SWITCHES>
    requires { length saved.now ≤ 16 }
    ensures { result.items ≡ map spec.change_in saved.now }
{
    let mut changes = ArrayVec::new();
    for change in saved {
        changes.push(change_in(*change));
    }
    changes
}

/// The first of them, so many.
pub fn bytes_in(count: u8, saved: &[u8; 128]) -> ArrayVec<u8, 128>
    requires { count ≤ 128 }
    ensures { result.items ≡ take count saved.now }
{
    ArrayVec::try_from(&saved[..usize::from(count)]).unwrap()
}

// ---- to numbers

pub fn numbers_of_switch(switch: Switch) -> SavedSwitch
    ensures { result ≡ spec.numbers_of_switch switch }
{
    SavedSwitch {
        control: switch.control.address(),
        mask: switch.mask,
        bits: switch.bits,
    }
}

pub fn numbers_of_change(change: Change) -> SavedChange
    ensures { result ≡ spec.numbers_of_change change }
{
    SavedChange {
        switch: numbers_of_switch(change.switch),
        original: change.original,
    }
}

/// How many there are, and their numbers with zeros after them.
pub fn numbers_of_switches(
    switches: &ArrayVec<Switch, MAX_SWITCHES>,
) -> (u8, [SavedSwitch; MAX_SWITCHES])
    ensures same { map spec.switch_in (take result.0 result.1) ≡ switches.now.items }
    ensures known { spec.are_switches result.0 result.1 ≡ true }
{
    let count = switches.len();
    let all = first_switches(switches);
    (count as u8, all)
}

fn first_switches(switches: &ArrayVec<Switch, MAX_SWITCHES>) -> [SavedSwitch; MAX_SWITCHES]
    ensures { take (length switches.now.items) result ≡ map spec.numbers_of_switch switches.now.items }
{
    let numbers = each_switch(switches);
    let mut all = [NO_SWITCH; MAX_SWITCHES];
    all[..numbers.len()].copy_from_slice(&numbers);
    all
}

fn each_switch(switches: &[Switch]) -> ArrayVec<SavedSwitch, MAX_SWITCHES>
    requires { length switches.now ≤ 16 }
    ensures items { result.items ≡ map spec.numbers_of_switch switches.now }
    ensures count { length result.items ≡ length switches.now }
{
    let mut numbers = ArrayVec::new();
    for switch in switches {
        numbers.push(numbers_of_switch(*switch));
    }
    numbers
}

/// How many there are, and their numbers with zeros after them.
pub fn numbers_of_changes(
    changes: &ArrayVec<Change, MAX_SWITCHES>,
) -> (u8, [SavedChange; MAX_SWITCHES])
    ensures same { spec.changes_in result.0 result.1 ≡ changes.now.items }
    ensures known { spec.are_changes result.0 result.1 ≡ true }
{
    let count = changes.len();
    let all = first_changes(changes);
    (count as u8, all)
}

fn first_changes(changes: &ArrayVec<Change, MAX_SWITCHES>) -> [SavedChange; MAX_SWITCHES]
    ensures { take (length changes.now.items) result ≡ map spec.numbers_of_change changes.now.items }
{
    let numbers = each_change(changes);
    let mut all = [NO_CHANGE; MAX_SWITCHES];
    all[..numbers.len()].copy_from_slice(&numbers);
    all
}

pub fn each_change(changes: &[Change]) -> ArrayVec<SavedChange, MAX_CHANGES>
    requires { length changes.now ≤ 33 }
    ensures items { result.items ≡ map spec.numbers_of_change changes.now }
    ensures count { length result.items ≡ length changes.now }
{
    let mut numbers = ArrayVec::new();
    for change in changes {
        numbers.push(numbers_of_change(*change));
    }
    numbers
}

/// How many there are, and themselves with zeros after them.
pub fn numbers_of_bytes(bytes: &ArrayVec<u8, 128>) -> (u8, [u8; 128])
    ensures same { take result.0 result.1 ≡ bytes.now.items }
    ensures few { result.0 ≤ 128 }
{
    let count = bytes.len();
    let all = first_bytes(bytes);
    (count as u8, all)
}

fn first_bytes(bytes: &ArrayVec<u8, 128>) -> [u8; 128]
    ensures { take (length bytes.now.items) result ≡ bytes.now.items }
{
    let mut all = [0; 128];
    all[..bytes.len()].copy_from_slice(bytes);
    all
}
