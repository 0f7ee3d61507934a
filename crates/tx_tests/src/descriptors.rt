//! The calls of a process on its descriptors, and their plans. What the calls require is had from
//! right counts alone.
ghost use Rattle.std.specs.Prelude.{ℕ, ◌≤◌, [], ◌∷◌, Option, IfOk};
ghost use Rattle.tx_desc.specs.Counts.{Agrees, HasRoom, IsBacked};
ghost use Rattle.tx_desc.specs.Places.{named_in};

use std::test::Fail;
use tx_base::{DescNo, Errno, PipeNo};
use tx_desc::{Descs, FdTable, Given, NewDesc, none_named_at_first, room_for_names};

/// A process that opened pipe 3, with descriptions 5 and 9 at descriptors 0 and 1.
fn opened() -> Result<(FdTable, Descs), Fail>
    ensures { IfOk result (λ pair. Agrees (pair.0 ∷ []) pair.1) }
{
    none_named_at_first();
    let mut table = FdTable::new();
    let mut descs = Descs::new();
    match table.pipe_pair(&mut descs, PipeNo(3), DescNo(5), DescNo(9)) {
        Ok((0, 1)) => Ok((table, descs)),
        _ => Err("the pipe is at other descriptors")?,
    }
}

/// What the calls of a process that is alone require.
fn is_alone(table: &FdTable, descs: &Descs)
    requires { Agrees (table.now ∷ []) descs.now }
    ensures backed { IsBacked 16 table.now descs.now }
    ensures room { (fd : Option ℕ) (room : ℕ) → room ≤ 16 →
        HasRoom room (named_in table.now fd) descs.now }
{
    room_for_names();
    table.sized();
}

/// The call, in a process that is alone.
fn dup(table: &mut FdTable, descs: &mut Descs, fd: i64) -> Result<usize, Errno>
    requires { Agrees (table.old ∷ []) descs.old }
    ensures { Agrees (table.new ∷ []) descs.new }
{
    is_alone(table, descs);
    table.dup(descs, fd)
}

/// The call, in a process that is alone.
fn close(table: &mut FdTable, descs: &mut Descs, fd: i64) -> Result<Given, Errno>
    requires { Agrees (table.old ∷ []) descs.old }
    ensures { Agrees (table.new ∷ []) descs.new }
{
    is_alone(table, descs);
    table.close(descs, fd)
}

/// The descriptors of a child of a process that is alone.
fn fork(table: &FdTable, descs: &mut Descs) -> FdTable
    requires { Agrees (table.now ∷ []) descs.old }
    ensures { Agrees (result ∷ table.now ∷ []) descs.new }
{
    is_alone(table, descs);
    let child = table.copy();
    descs.raise_all(&child);
    child
}

/// The end of a child, which leaves its parent alone.
fn end_child(child: &FdTable, table: &FdTable, descs: &mut Descs)
    requires { Agrees (child.now ∷ table.now ∷ []) descs.old }
    ensures { Agrees (table.now ∷ []) descs.new }
{
    room_for_names();
    child.sized();
    table.sized();
    descs.drop_all(child);
}

/// How many names a description has: 0 where it is gone.
fn names(descs: &Descs, number: u8) -> u16 {
    match descs.get(DescNo(number)) {
        Some(opened) => opened.names,
        None => 0,
    }
}

#[test]
fn a_description_goes_with_its_last_name(rt: HostRuntime) -> Result<(), Fail> {
    let (mut table, mut descs) = opened()?;
    let child = fork(&table, &mut descs);
    assert!(rt; names(&descs, 5) == 2);
    end_child(&child, &table, &mut descs);
    assert!(rt; dup(&mut table, &mut descs, 0) == Ok(2));
    assert!(rt; names(&descs, 5) == 2);
    let first = close(&mut table, &mut descs, 0);
    assert!(rt; first.is_ok_and(|given| given.gone.is_none()));
    let last = close(&mut table, &mut descs, 2);
    assert!(rt; last.is_ok_and(|given| given.gone.is_some()));
    assert!(rt; names(&descs, 5) == 0);
    Ok(())
}

#[test]
fn a_descriptor_is_named_anew(rt: HostRuntime) -> Result<(), Fail> {
    let (mut table, mut descs) = opened()?;
    is_alone(&table, &descs);
    assert!(rt; table.set_nonblock(&mut descs, 0, true) == Ok(()));
    assert!(rt;
        descs
            .get(DescNo(5))
            .is_some_and(|opened| opened.desc.nonblock)
    );
    let (mut table, mut descs) = opened()?;
    is_alone(&table, &descs);
    let renamed = table.dup2(&mut descs, 0, 1);
    assert!(rt; renamed.is_ok_and(|renamed| renamed.fd == 1 && renamed.given.is_some()));
    assert!(rt; names(&descs, 9) == 0 && names(&descs, 5) == 2);
    Ok(())
}

#[test]
fn plans_of_descriptors_change_nothing(rt: HostRuntime) -> Result<(), Fail> {
    let (table, descs) = opened()?;
    is_alone(&table, &descs);
    let pipe = table.plan_pipe(PipeNo(4), DescNo(6), DescNo(7));
    assert!(rt; pipe.is_ok_and(|plan| plan.read_name.fd == 2 && plan.write_name.fd == 3));
    let dup = table.plan_dup(&descs, 1);
    assert!(rt; dup.is_ok_and(|plan| plan.name.fd == 2));
    let dup2 = table.plan_dup2(&descs, 0, 1);
    assert!(rt; dup2.is_ok_and(|plan| plan.rename.is_some()));
    let close = table.plan_close(&descs, 1);
    assert!(rt; close.is_ok_and(|plan| plan.given.gone.is_some()));
    let nonblock = table.plan_nonblock(&descs, 1, true);
    assert!(rt; nonblock.is_ok_and(|plan| plan.opened.is_some()));
    assert!(rt; descs.plan_raise_all(&table).len() == 2 && descs.plan_drop_all(&table).len() == 2);
    assert!(rt; table.get(1) == Some(DescNo(9)) && names(&descs, 9) == 1);
    Ok(())
}

#[test]
fn a_pipe_is_named_while_either_description_is_there(rt: HostRuntime) -> Result<(), Fail> {
    let (mut table, mut descs) = opened()?;
    let no_reader = NewDesc {
        number: DescNo(5),
        opened: None,
    };
    let no_writer = NewDesc {
        number: DescNo(9),
        opened: None,
    };
    assert!(rt; descs.names_pipe_with(&[no_reader], PipeNo(3)));
    assert!(rt; !descs.names_pipe_with(&[no_reader, no_writer], PipeNo(3)));
    let _given = close(&mut table, &mut descs, 0);
    assert!(rt; descs.names_pipe_with(&[no_reader], PipeNo(3)));
    assert!(rt; !descs.names_pipe_with(&[no_writer], PipeNo(3)));
    Ok(())
}
