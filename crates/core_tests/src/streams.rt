use std::io::{Error, ErrorKind, Read, Write};
use std::test::Fail;
use std::{env, fs, io};
use sync_outside::{Failed, Sink, Sources};
use system_io::system_sources::read_once;
use system_io::{SystemSources, WriterSink};

// What the first read of a name gives, or `None` where a call failed.
fn read_first<S: Sources>(source: &mut S, name: &str, buf: &mut [u8]) -> Option<usize> {
    source.open(name).ok()?;
    source.read(buf).ok()
}

#[test]
fn system_sources_read_files_and_count_their_faults(rt: HostRuntime) -> Result<(), Fail> {
    let folder = env::temp_dir(&rt)?;
    let path = format!(in rt.alloc(); "{}/system_io.txt", folder.display())?;
    fs::write(&rt, path.as_str(), "0123456789")?;
    let mut source = SystemSources::new(&rt);
    let mut buf = [0; 6];
    source.open(path.as_str())?;
    assert!(rt; source.read(&mut buf) == Ok(6));
    assert!(rt; buf == *b"012345");
    assert!(rt; source.read(&mut buf) == Ok(4));
    assert!(rt; buf == *b"678945");
    assert!(rt; source.read(&mut buf) == Ok(0));
    fs::remove_file(&rt, path.as_str())?;
    assert!(rt; (source.open_faults(), source.read_faults()) == (0, 0));

    assert!(rt; read_first(&mut source, path.as_str(), &mut buf).is_none());
    assert!(rt; read_first(&mut source, "/", &mut buf).is_none());
    assert!(rt; source.open_faults().saturating_add(source.read_faults()) == 2);
    Ok(())
}

// A reader whose reads come to these, one after the other: a fault, or so many bytes.
#[derive(Drop)]
struct Scripted {
    reads: Vec<Result<usize, ErrorKind>>,
    next: usize,
}

impl Read for Scripted {
    fn read(&mut self, buf: &mut [u8]) -> io::Result<usize> {
        let Some(read) = self.reads.get(self.next) else {
            return Ok(0);
        };
        self.next += 1;
        match read {
            Ok(count) => Ok((*count).min(buf.len())),
            Err(kind) => Err(Error::from(*kind)),
        }
    }
}

#[test]
fn an_interrupted_read_is_tried_again_and_a_failed_one_is_not(rt: HostRuntime) -> Result<(), Fail> {
    let mut script = Scripted {
        reads: vec![in rt.alloc();
            Err(ErrorKind::Interrupted),
            Err(ErrorKind::Interrupted),
            Ok(3),
            Err(ErrorKind::Other),
            Ok(2),
        ]?,
        next: 0,
    };
    let mut buf = [0; 4];
    for wanted in [Ok(3), Err(Failed), Ok(2), Ok(0)] {
        assert!(rt; read_once(&mut script, &mut buf) == wanted);
    }
    Ok(())
}

// A writer that takes two bytes at a time and is interrupted before each. Once its room is taken it fails, or else takes none.
#[derive(Drop)]
struct Slow {
    bytes: Vec<u8>,
    interrupted: bool,
    room: usize,
    fails: bool,
}

impl Write for Slow {
    fn write(&mut self, buf: &[u8]) -> io::Result<usize> {
        self.interrupted = !self.interrupted;
        if self.interrupted {
            return Err(Error::from(ErrorKind::Interrupted));
        }
        if self.room == 0 && self.fails {
            return Err(Error::from(ErrorKind::Other));
        }
        let count = buf.len().min(2).min(self.room);
        self.bytes.extend_from_slice(&buf[..count])?;
        self.room -= count;
        Ok(count)
    }

    fn flush(&mut self) -> io::Result<()> {
        Ok(())
    }
}

#[test]
fn a_writer_gets_whole_pieces_by_short_writes(rt: HostRuntime) -> Result<(), Fail> {
    for fails in [false, true] {
        let mut slow = Slow {
            bytes: Vec::new(rt.alloc()),
            interrupted: false,
            room: 8,
            fails,
        };
        let mut sink = WriterSink::new(&mut slow);
        assert!(rt; sink.write(b"hello") == Ok(()));
        assert!(rt; sink.write(b"world") == Err(Failed));
        assert!(rt; sink.write(b"") == Ok(()));
        assert!(rt; sink.write(b"!") == Err(Failed));
        assert!(rt; sink.faults() == 2);
        drop(sink);
        assert!(rt; slow.bytes.as_slice() == b"hellowor".as_slice());
    }
    Ok(())
}
