//! Numbers in bytes.
ghost use Rattle.std.specs.Prelude.{◌≡◌, ◌+◌, ◌^◌, ◌<◌, ◌++◌, [], List, ℕ, IfOk, OnOk};
ghost use Rattle.l4_states.specs.Inner.Bytes.{put_number};
ghost use Rattle.l4_states.specs.Inner.Codes.{each, flag_code, length_code, number_code};
ghost use Rattle.l4_codes.specs.Inner.Written.{appended, with_numbers, zeros_told, Writes};

use std::alloc::{AllocError, Global};
use std::marker::Model;

/// A code that is being written: a list of numbers, in bytes. Most of the numbers are small, and
/// most are 0.
#[derive(Drop)]
pub struct Code {
    bytes: Vec<u8>,
    // The number of zeros behind these that are not in the bytes yet.
    zeros: u8,
}

impl Model for Code {
    ghost use Rattle.l4_codes.specs.Inner.Written.{Written};

    ghost Value = { Written };

    ghost view = { λ c. record { bytes = c.bytes.items; zeros = c.zeros } };
}

impl Code {
    /// An empty code.
    pub fn new(alloc: Global) -> Code
        ensures { result ≡ record { bytes = []; zeros = 0 } }
    {
        Code {
            bytes: Vec::new(alloc),
            zeros: 0,
        }
    }

    /// Makes room for so many bytes more, as memory is asked for once then.
    ///
    /// `AllocError`: memory was refused.
    pub fn reserve(&mut self, bytes: usize) -> Result<(), AllocError>
        ensures { self.new ≡ self.old }
    {
        self.bytes.reserve(bytes)
    }

    /// Appends a number.
    ///
    /// `AllocError`: memory was refused.
    #[inline(always)]
    pub fn put(&mut self, number: u64) -> Result<(), AllocError>
        ensures { OnOk result (Writes (number_code number) self.old self.new) }
    {
        if number == 0 {
            return self.put_zero();
        }
        self.end_zeros()?;
        push_number(&mut self.bytes, number)
    }

    /// Appends 1 where something is so, else 0.
    ///
    /// `AllocError`: memory was refused.
    pub fn put_flag(&mut self, flag: bool) -> Result<(), AllocError>
        ensures { OnOk result (Writes (flag_code flag) self.old self.new) }
    {
        self.put(if flag { 1 } else { 0 })
    }

    /// Appends the length of a list: 0 where it is the usual one, else the length plus 1.
    ///
    /// `AllocError`: memory was refused.
    pub fn put_length(&mut self, usual: usize, length: usize) -> Result<(), AllocError>
        requires { length + 1 < 2 ^ 64 }
        ensures { OnOk result (Writes (number_code (length_code usual length)) self.old self.new) }
    {
        if length == usual {
            return self.put(0);
        }
        self.put(length as u64 + 1)
    }

    /// Appends numbers, one after the other.
    ///
    /// `AllocError`: memory was refused.
    pub fn put_all(&mut self, numbers: &[u64]) -> Result<(), AllocError>
        ensures { OnOk result (Writes (each number_code numbers.now) self.old self.new) }
    {
        for number in numbers {
            self.put(*number)?;
        }
        Ok(())
    }

    /// Appends a code that was written by itself. Its value is written too where that begins with a
    /// number above 0.
    ///
    /// `AllocError`: memory was refused.
    pub fn append(&mut self, other: &Code) -> Result<(), AllocError>
        ensures { OnOk result (self.new ≡ appended self.old other.now) }
    {
        self.end_zeros()?;
        self.bytes.extend_from_slice(&other.bytes)?;
        self.zeros = other.zeros;
        Ok(())
    }

    /// Its bytes so far, without the zeros that are not in them yet.
    pub fn bytes(&self) -> &[u8]
        ensures { result.now ≡ self.now.bytes }
    {
        &self.bytes
    }

    /// The number of zeros behind its bytes that are not in them yet.
    pub fn zeros(&self) -> u8
        ensures { result ≡ self.now.zeros }
    {
        self.zeros
    }

    /// The bytes of the code.
    ///
    /// `AllocError`: memory was refused.
    pub fn into_bytes(self) -> Result<Vec<u8>, AllocError>
        ensures { IfOk result (λ bytes. bytes.items ≡ with_numbers self []) }
    {
        let mut code = self;
        code.end_zeros()?;
        Ok(code.bytes)
    }

    // Appends a zero.
    #[inline(always)]
    fn put_zero(&mut self) -> Result<(), AllocError>
        ensures { OnOk result (Writes (number_code 0) self.old self.new) }
    {
        if self.zeros == u8::MAX {
            self.end_zeros()?;
        }
        self.zeros += 1;
        Ok(())
    }

    // Writes the zeros that are not in the bytes yet.
    #[inline(never)]
    fn end_zeros(&mut self) -> Result<(), AllocError>
        ensures { OnOk result (self.new ≡ zeros_told self.old) }
    {
        if self.zeros > 0 {
            self.bytes.push(0)?;
            self.bytes.push(self.zeros)?;
            self.zeros = 0;
        }
        Ok(())
    }
}

// Appends a number, seven bits in a byte, the low ones first.
#[inline(never)]
fn push_number(bytes: &mut Vec<u8>, number: u64) -> Result<(), AllocError>
    ensures { OnOk result ((rest : List ℕ) →
        bytes.new.items ++ rest ≡ bytes.old.items ++ put_number number rest) }
{
    let mut left = number;
    while left >= 128 {
        bytes.push((left % 128) as u8 + 128)?;
        left /= 128;
    }
    bytes.push(left as u8)?;
    Ok(())
}
