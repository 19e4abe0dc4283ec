//! What the tests share: readers and writers that refuse, files, and runtimes whose random bytes are chosen.

use cl_config::Config;
use cl_model::Untold;
use cl_program::OpenDirectories;
use cl_source::{MemorySource, ReadFile, Source, SourceFault, Telling};
use cl_streams::InputFault;
use std::alloc::{AllocError, Global};
use std::io::{self, ErrorKind, Read, Write};
use std::random::RandomSource;
use std::sync::Wait;
use std::thread::Threads;

/// A reader that is interrupted before each byte, and refuses the read behind the last of its room.
#[derive(Drop)]
pub struct CountingReader<'a> {
    pub bytes: &'a [u8],
    pub room: usize,
    pub is_interrupted: bool,
    pub refused: &'a mut usize,
}

impl Read for CountingReader<'_> {
    fn read(&mut self, buf: &mut [u8]) -> io::Result<usize> {
        self.is_interrupted = !self.is_interrupted;
        if self.is_interrupted {
            return Err(io::Error::from(ErrorKind::Interrupted));
        }
        if self.room == 0 {
            *self.refused = self.refused.saturating_add(1);
            return Err(io::Error::from(ErrorKind::ConnectionReset));
        }
        self.room -= 1;
        let (Some(byte), Some(place)) = (self.bytes.first(), buf.first_mut()) else {
            return Ok(0);
        };
        *place = *byte;
        self.bytes = &self.bytes[1..];
        Ok(1)
    }
}

/// A writer that is interrupted before each byte, and refuses the write behind the last of its room.
#[derive(Drop)]
pub struct CountingWriter {
    pub bytes: Vec<u8>,
    pub room: usize,
    pub is_interrupted: bool,
    pub refused: usize,
}

impl Write for CountingWriter {
    fn write(&mut self, buf: &[u8]) -> io::Result<usize> {
        self.is_interrupted = !self.is_interrupted;
        if self.is_interrupted {
            return Err(io::Error::from(ErrorKind::Interrupted));
        }
        let Some(byte) = buf.first() else {
            return Ok(0);
        };
        if self.bytes.len() >= self.room {
            self.refused = self.refused.saturating_add(1);
            return Err(io::Error::from(ErrorKind::BrokenPipe));
        }
        self.bytes.push(*byte)?;
        Ok(1)
    }

    fn flush(&mut self) -> io::Result<()> {
        Ok(())
    }
}

/// A writer with so much room.
pub fn writer<R: AllocGlobal>(rt: &R, room: usize) -> CountingWriter {
    CountingWriter {
        bytes: Vec::new(rt.alloc()),
        room,
        is_interrupted: false,
        refused: 0,
    }
}

/// A runtime without files, whose random bytes all are this one, or cannot be had.
#[derive(Drop)]
pub struct SeededRuntime<'a, R> {
    pub host: &'a R,
    pub random: Option<u8>,
}

impl<R: Threads> Threads for SeededRuntime<'_, R> {}

impl<R: Wait> Wait for SeededRuntime<'_, R> {}

impl<R> RandomSource for SeededRuntime<'_, R> {
    fn fill_bytes(&self, buf: &mut [u8]) -> io::Result<()> {
        match self.random {
            Some(byte) => {
                buf.fill(byte);
                Ok(())
            }
            None => Err(io::Error::from(ErrorKind::Other)),
        }
    }
}

impl<R> OpenDirectories for SeededRuntime<'_, R> {
    type Opened = Telling<Untold>;

    fn open(&self, alloc: Global, _config: &Config) -> Result<Telling<Untold>, SourceFault> {
        Ok(MemorySource::new(alloc).tell::<Untold>())
    }
}

/// No file stands at any path.
#[derive(Drop)]
pub struct NoFiles;

impl ReadFile for NoFiles {
    fn read_file(
        &self,
        _alloc: Global,
        _path: &str,
        _most: usize,
    ) -> Result<Option<Vec<u8>>, InputFault> {
        Ok(None)
    }

    fn another(&self, _alloc: Global) -> Result<NoFiles, AllocError> {
        Ok(NoFiles)
    }
}

/// A configuration, and a script at the path `script`.
#[derive(Drop)]
pub struct TwoFiles {
    pub config: &'static str,
    pub script: &'static str,
}

impl ReadFile for TwoFiles {
    fn read_file(
        &self,
        alloc: Global,
        path: &str,
        most: usize,
    ) -> Result<Option<Vec<u8>>, InputFault> {
        let text = if path == "script" {
            self.script
        } else {
            self.config
        };
        if text.len() > most {
            return Err(InputFault::TooLarge);
        }
        Ok(Some(Vec::from_slice(alloc, text.as_bytes())?))
    }

    fn another(&self, _alloc: Global) -> Result<TwoFiles, AllocError> {
        Ok(TwoFiles {
            config: self.config,
            script: self.script,
        })
    }
}
