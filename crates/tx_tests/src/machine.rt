//! The machine: aborts by the kernel, wide runs, free numbers, and footprints.
use std::alloc::Global;
use std::test::Fail;
use tx_base::{Call, DescNo, NoMemory, Pid, PipeNo, Reply, Step};
use tx_core::{Free, Machine, NoTransaction, run, run_wide};
use tx_reserve::{Object, Objects, footprint};

/// The call of process 2.
fn of_second(call: Call) -> Step {
    Step::Call(Pid(2), call)
}

/// Whether process 2 begins a transaction.
fn begins(alloc: Global, machine: &mut Machine) -> bool {
    let (reply, _inverse) = machine.step(alloc, &of_second(Call::SysXbegin));
    matches!(reply, Reply::Done(0))
}

/// Whether the kernel may abort the transaction of process 2, and process 3 has none to abort.
fn has_one_to_abort(machine: &mut Machine) -> bool {
    machine.kernel_status(Pid(2)) == Some(202)
        && matches!(machine.kernel_abort(Pid(3)), Err(NoTransaction))
}

/// Aborts the transaction of process 2 as the kernel does, and takes that back. Whether process 2
/// is a member of none, and then of its own.
fn is_aborted_and_back(machine: &mut Machine) -> bool {
    let Ok(inverse) = machine.kernel_abort(Pid(2)) else {
        return false;
    };
    let is_gone = machine.txn_of(Pid(2)).is_none() && machine.marks().get(Pid(2)).is_none();
    let none_left = machine.live_count() == 0;
    machine.undo(inverse);
    let is_back = machine.txn_of(Pid(2)) == Some(Pid(2)) && machine.held(Pid(2)).is_empty();
    is_gone && none_left && is_back && machine.live_count() == 1
}

#[test]
fn aborts_by_the_kernel_and_back(rt: HostRuntime) -> Result<(), Fail> {
    let mut machine = Machine::boot_wide(rt.alloc(), 3)?;
    assert!(rt; begins(rt.alloc(), &mut machine) && has_one_to_abort(&mut machine));
    assert!(rt; is_aborted_and_back(&mut machine));
    Ok(())
}

/// Whether process 65 of a wide run is answered its number.
fn has_process_65(alloc: Global) -> Result<bool, NoMemory> {
    let made = run_wide(alloc, 65, &[Step::Call(Pid(65), Call::Getpid)])?;
    let mut replies = made.history.iter().map(|accepted| &accepted.reply);
    Ok(replies.any(|reply| matches!(reply, Reply::Done(65))))
}

#[test]
fn a_wide_run_has_more_processes(rt: HostRuntime) -> Result<(), Fail> {
    assert!(rt; has_process_65(rt.alloc())?);
    Ok(())
}

/// The numbers that are free for a process after a run of three, as 4 numbers.
fn free_after(alloc: Global, steps: &[Step], number: u16) -> Result<Option<[u16; 4]>, NoMemory> {
    let made = run(alloc, 3, steps)?;
    let free = made.machine.free_numbers(Pid(number));
    Ok(four(&free))
}

/// The numbers, where all are there.
fn four(free: &Free) -> Option<[u16; 4]> {
    let (PipeNo(pipe), (DescNo(read), DescNo(write))) = (free.pipe?, free.descs?);
    Some([free.proc?.0, pipe.into(), read.into(), write.into()])
}

#[test]
fn picks_the_least_free_numbers(rt: HostRuntime) -> Result<(), Fail> {
    let steps = [
        of_second(Call::SysXbegin),
        of_second(Call::Pipe(PipeNo(0), DescNo(0), DescNo(1))),
        of_second(Call::Close(0)),
        of_second(Call::Close(1)),
    ];
    let own = free_after(rt.alloc(), &steps, 2)?;
    assert!(rt; own == Some([4, 0, 0, 1]), "given up by its own");
    let other = free_after(rt.alloc(), &steps, 3)?;
    assert!(rt; other == Some([4, 1, 2, 3]), "reserved from others");
    let steps = [
        of_second(Call::SysXbegin),
        of_second(Call::Pipe(PipeNo(0), DescNo(0), DescNo(1))),
        of_second(Call::SysXabort),
    ];
    let aborted = free_after(rt.alloc(), &steps, 3)?;
    assert!(rt; aborted == Some([4, 0, 0, 1]), "free again");
    Ok(())
}

/// What a step names, if its process has sent nothing that is held.
fn named_by(machine: &Machine, step: &Step) -> Objects {
    footprint(machine.parts(), machine.marks(), &[], step)
}

/// Whether a kill names its sender and its target alone.
fn kill_names_both(machine: &Machine) -> bool {
    let named = named_by(machine, &of_second(Call::Kill(3, 10)));
    named.has(Object::Proc(Pid(2)))
        && named.has(Object::Proc(Pid(3)))
        && !named.has(Object::Proc(Pid(1)))
}

#[test]
fn a_kill_names_its_target(rt: HostRuntime) -> Result<(), Fail> {
    let machine = Machine::boot(rt.alloc(), 3)?;
    assert!(rt; kill_names_both(&machine));
    Ok(())
}

/// Whether the kill of a process that is not there names that process alone.
fn missing_names_itself(machine: &Machine) -> bool {
    let named = named_by(machine, &Step::Call(Pid(9), Call::Kill(3, 10)));
    named.has(Object::Proc(Pid(9))) && !named.has(Object::Proc(Pid(3)))
}

#[test]
fn a_missing_process_names_itself_and_the_kernel_nothing(rt: HostRuntime) -> Result<(), Fail> {
    let machine = Machine::boot(rt.alloc(), 3)?;
    assert!(rt; missing_names_itself(&machine));
    assert!(rt; named_by(&machine, &Step::KernelAbort(Pid(2))).is_empty());
    Ok(())
}
