//! Arguments with which tests run a program, and a reader that fails.
use std::alloc::Allocator;
use std::env::FillError;
use std::io;
use std::io::{ErrorKind, Read};
use std::rt::Env;

/// An environment with these arguments, the program's name first, and with the allocator for reading them.
#[derive(Clone, Copy)]
pub struct Called<A> {
    pub arguments: &'static [&'static [u8]],
    pub alloc: A,
}

impl<A> Env for Called<A> {
    fn arg(&self, i: usize, buf: &mut [u8]) -> Result<usize, FillError> {
        let Some(argument) = self.arguments.get(i) else {
            return Err(FillError::NotPresent);
        };
        let count = argument.len();
        if count > buf.len() {
            return Err(FillError::TooLong);
        }
        buf[..count].copy_from_slice(argument);
        Ok(count)
    }

    fn var(&self, _name: &str, _buf: &mut [u8]) -> Result<usize, FillError> {
        Err(FillError::NotPresent)
    }

    fn var_at(&self, _i: usize, _buf: &mut [u8]) -> Result<usize, FillError> {
        Err(FillError::NotPresent)
    }
}

impl<A: Allocator + Copy> Alloc for Called<A> {
    type A = A;

    fn alloc(&self) -> A {
        self.alloc
    }
}

/// A reader over memory that gives at most `at_once` bytes at a call, and fails after `calls_left` calls.
#[derive(Drop)]
pub struct Failing<'a> {
    rest: &'a [u8],
    at_once: usize,
    calls_left: u64,
    /// Whether there is an interruption before each call that gives bytes or fails.
    interrupts: bool,
    is_interrupted: bool,
}

impl<'a> Failing<'a> {
    /// Makes a reader that gives at most `at_once` bytes at each of `calls_left` calls, and then fails.
    pub fn new(rest: &'a [u8], at_once: usize, calls_left: u64) -> Failing<'a> {
        Failing {
            rest,
            at_once,
            calls_left,
            interrupts: false,
            is_interrupted: false,
        }
    }

    /// Makes each of those calls, and the one that fails, return one interruption first.
    pub fn interrupted(self) -> Failing<'a> {
        Failing {
            interrupts: true,
            ..self
        }
    }
}

impl Read for Failing<'_> {
    fn read(&mut self, buf: &mut [u8]) -> io::Result<usize> {
        self.is_interrupted = self.interrupts && !self.is_interrupted;
        if self.is_interrupted {
            return Err(io::Error::from(ErrorKind::Interrupted));
        }
        if self.calls_left == 0 {
            return Err(io::Error::from(ErrorKind::Other));
        }
        self.calls_left -= 1;
        let count = self.at_once.min(buf.len()).min(self.rest.len());
        let (now, later) = self.rest.split_at(count);
        buf[..count].copy_from_slice(now);
        self.rest = later;
        Ok(count)
    }
}
