//! The calls of a pipe, and what takes them back.
use std::test::Fail;
use tx_pipe::Pipe;

#[test]
fn bytes_leave_a_pipe_and_come_back(rt: HostRuntime) -> Result<(), Fail> {
    let mut pipe = Pipe::new();
    assert!(rt; pipe.write(&[1, 2, 3, 4]));
    let mut into = [0; 2];
    let count = pipe.read(&mut into);
    assert!(rt; count == 2 && into == [1, 2]);
    pipe.put_back(&into);
    assert!(rt; pipe.len() == 4);
    pipe.take_back(1);
    assert!(rt; pipe.bytes() == [1, 2, 3].as_slice());
    let mut other = Pipe::new();
    let mut count = 1;
    pipe.swap_front(&mut count, &mut other);
    assert!(rt; pipe.bytes() == [2, 3].as_slice() && other.bytes() == [1].as_slice());
    count = 0;
    pipe.swap_back(&mut count, &mut other);
    assert!(rt; pipe.bytes() == [2, 3, 1].as_slice() && other.is_empty());
    Ok(())
}

#[test]
fn a_write_fits_whole_or_not_at_all(rt: HostRuntime) {
    let mut pipe = Pipe::new();
    assert!(rt; pipe.write(&[7; 511]));
    assert!(rt; !pipe.write(&[8, 9]) && pipe.room() == 1);
    assert!(rt; pipe.write(&[8]) && pipe.len() == 512);
}
