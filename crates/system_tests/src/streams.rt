use crate::process::{Answer, Process, text_of};
use outside_io::*;
use std::test::Fail;

#[test]
fn reads_all_up_to_the_limit(rt: HostRuntime) -> Result<(), Fail> {
    let alloc = rt.alloc();
    for (count, piece, limit, fits) in [
        (0, 1, 0, true),
        (1, 1, 0, false),
        (5, 1, 5, true),
        (6, 1, 5, false),
        (8192, 3000, 8192, true),
        (8193, 8193, 8192, false),
        (20000, 20000, 20001, true),
    ] {
        let mut source = MemSource::new(text_of(alloc, count)?, piece, Vec::new(alloc));
        let found = read_whole(alloc, &mut source, limit);
        let wanted = if fits {
            Some(text_of(alloc, count)?)
        } else {
            None
        };
        assert!(rt;
            found == Ok(wanted),
            "{count} bytes in pieces of {piece} at the limit {limit}"
        );
        let mut quiet = QuietSource::new(text_of(alloc, count)?);
        assert_eq!(rt;
            read_whole(alloc, &mut quiet, count).map(|found| found.is_some()),
            Ok(true)
        );
        assert!(rt; quiet.left().is_empty());
    }
    Ok(())
}

#[test]
fn a_failing_read_moves_nothing(rt: HostRuntime) -> Result<(), Fail> {
    let alloc = rt.alloc();
    let mut source = MemSource::new(text_of(alloc, 5)?, 1, vec![in alloc; 2]?);
    assert!(rt; read_whole(alloc, &mut source, 9) == Err(InputError::Failed));
    assert_eq!(rt; source.left(), [2, 3, 4].as_slice());
    assert_eq!(rt; source.faults(), 1);
    assert!(rt; read_whole(alloc, &mut source, 9) == Ok(Some(vec![in alloc; 2, 3, 4]?)));
    assert_eq!(rt; source.faults(), 1);
    Ok(())
}

#[test]
fn nothing_is_asked_behind_the_end(rt: HostRuntime) -> Result<(), Fail> {
    let alloc = rt.alloc();
    let mut source = MemSource::new(text_of(alloc, 2)?, 1, vec![in alloc; 3]?);
    let found = read_whole(alloc, &mut source, 9);
    assert!(rt; found == Ok(Some(text_of(alloc, 2)?)));
    assert_eq!(rt; source.faults(), 0);
    Ok(())
}

#[test]
fn a_failing_write_takes_nothing(rt: HostRuntime) -> Result<(), Fail> {
    let alloc = rt.alloc();
    let text = vec![in alloc; 7, 1, 8, 2, 8]?;
    assert_eq!(rt; text.len(), 5);
    for (room, piece, fails, written, taken, faults) in [
        (5, 1, 9, Ok(()), 5, 0),
        (9, 3, 9, Ok(()), 5, 0),
        (5, 1, 2, Err(Failed), 2, 1),
        (5, 2, 0, Err(Failed), 0, 1),
        (3, 1, 9, Err(Failed), 3, 1),
    ] {
        let mut sink = MemSink::new(alloc, room, piece, vec![in alloc; fails]?)?;
        assert_eq!(rt; write_whole(&mut sink, &text), written);
        assert_eq!(rt; sink.taken(), &text[..taken]);
        assert_eq!(rt; sink.faults(), faults);
    }
    assert_eq!(rt; write_whole(&mut NullSink::new(), &text), Ok(()));
    Ok(())
}

#[test]
fn an_input_comes_whole_past_signals_and_short_pieces(rt: HostRuntime) -> Result<(), Fail> {
    let alloc = rt.alloc();
    let process = Process::new(
        &[
            Answer::Moves(8192),
            Answer::Signal,
            Answer::Moves(5000),
            Answer::Signal,
            Answer::Signal,
            Answer::Moves(1),
            Answer::Moves(6807),
        ],
        &[],
    );
    let typed = read_whole(alloc, &mut StdSource::over(&process), 20000);
    assert!(rt; typed == Ok(Some(text_of(alloc, 20000)?)));
    let none = Process::new(&[], &[]);
    assert!(rt; read_whole(alloc, &mut StdSource::over(&none), 9) == Ok(Some(Vec::new(alloc))));
    Ok(())
}

#[test]
fn a_text_is_written_whole_past_signals_and_short_pieces(rt: HostRuntime) -> Result<(), Fail> {
    let text = text_of(rt.alloc(), 20000)?;
    let process = Process::new(
        &[],
        &[
            Answer::Moves(9000),
            Answer::Signal,
            Answer::Moves(1),
            Answer::Moves(20000),
        ],
    );
    assert_eq!(rt; write_whole(&mut StdSink::over(&process), &text), Ok(()));
    assert!(rt; process.has_written(20000));
    assert_eq!(rt; write_whole(&mut StdSink::over(&rt), b"written\n"), Ok(()));
    Ok(())
}

#[test]
fn a_stream_that_breaks_or_takes_nothing_is_a_fault(rt: HostRuntime) -> Result<(), Fail> {
    let text = text_of(rt.alloc(), 8)?;
    assert_eq!(rt; text.len(), 8);
    let process = Process::new(
        &[Answer::Moves(3), Answer::Broken, Answer::Moves(2)],
        &[
            Answer::Moves(3),
            Answer::Broken,
            Answer::Moves(0),
            Answer::Moves(5),
        ],
    );
    let mut source = StdSource::over(&process);
    let mut buffer = [0u8; 8];
    assert_eq!(rt; source.read(&mut buffer), Ok(3));
    assert_eq!(rt; source.read(&mut buffer), Err(Failed));
    assert_eq!(rt; source.read(&mut buffer), Ok(2));
    assert_eq!(rt; buffer[0], 3);
    let mut sink = StdSink::over(&process);
    assert_eq!(rt; sink.write(&text), Ok(3));
    assert_eq!(rt; sink.write(&text[3..]), Err(Failed));
    assert_eq!(rt; sink.write(&text[3..]), Err(Failed));
    assert_eq!(rt; write_whole(&mut sink, b""), Ok(()));
    assert_eq!(rt; sink.write(&text[3..]), Ok(5));
    assert!(rt; process.has_written(8));
    Ok(())
}
