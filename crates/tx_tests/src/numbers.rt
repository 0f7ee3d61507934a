//! The numbers of errors and of signals, those of Linux; the slots of a table; and how large a
//! change and an inverse are.
use bitflags::Flags;
use std::mem;
use std::test::Fail;
use tx_base::{Errno, PROCESSES, Pid, SigSet, Slots, WIDE_PROCESSES};
use tx_change::Change;
use tx_content::Inverse;
use tx_signal::known;

#[test]
fn errors_have_the_numbers_of_linux(rt: HostRuntime) {
    for (error, number) in [
        (Errno::NotPermitted, 1),
        (Errno::NoSuchProcess, 3),
        (Errno::BadDescriptor, 9),
        (Errno::NoChild, 10),
        (Errno::TryAgain, 11),
        (Errno::BadAddress, 14),
        (Errno::InvalidArgument, 22),
        (Errno::TooManyDescriptors, 24),
        (Errno::BrokenPipe, 32),
    ] {
        let is_answered = error.answer() == -i64::from(number);
        assert!(rt;
            error.number() == number && is_answered,
            "the error of number {number}"
        );
    }
}

#[test]
fn signals_have_the_numbers_of_linux(rt: HostRuntime) {
    let numbers = [
        1, 2, 3, 6, 9, 10, 12, 13, 14, 15, 17, 32, 33, 34, 35, 36, 37, 38, 39,
    ];
    for number in -1..300 {
        let is_there = numbers.contains(&number);
        assert!(rt; known(number).is_some() == is_there, "at {number}");
    }
}

#[test]
fn the_bit_of_signal_n_is_two_to_the_n(rt: HostRuntime) {
    for (set, bits) in [
        (SigSet::HUP, 0b10),
        (SigSet::KILL, 0b10_0000_0000),
        (SigSet::CHLD, 0x2_0000),
        (SigSet::REALTIME_0, 0x1_0000_0000),
        (SigSet::REALTIME_7, 0x80_0000_0000),
        (SigSet::all(), 0xff_0002_f64e),
    ] {
        assert!(rt; set.bits() == bits, "the bits {bits}");
    }
}

#[test]
fn first_and_last_slots_are_kept_apart(rt: HostRuntime) -> Result<(), Fail> {
    for width in [PROCESSES, WIDE_PROCESSES] {
        let mut slots: Slots<u8> = Slots::new(rt.alloc(), width)?;
        assert!(rt; slots.width() == width as usize && width > 0);
        slots.put(Pid(1), 7);
        slots.swap(Pid(width), &mut Some(8));
        assert!(rt; slots.get(Pid(1)).copied() == Some(7));
        *slots.value_mut(Pid(width)) += 1;
        assert!(rt; slots.take(Pid(width)) == Some(9));
        assert!(rt; slots.get(Pid(0)).is_none() && slots.get(Pid(u16::MAX)).is_none());
    }
    Ok(())
}

#[test]
fn changes_and_inverses_are_small(rt: HostRuntime) {
    assert!(rt; mem::size_of::<Change>() <= 56);
    assert!(rt; mem::size_of::<Inverse>() <= 96);
}
