//! Prints the CRC-32 of standard input, as 8 hexadecimal digits. `bench/crc` measures its speed.
#![tactic(auto)]

ghost use Rattle.std.specs.Prelude.{◌≡◌, ◌<◌, IfOk, IfSome, length};
ghost use Rattle.bk_crc.specs.Crc.{crc_of};

use bk_crc::Running;
use std::io;
use std::io::{ErrorKind, Read};

const PIECE: usize = 65_536;

/// The CRC-32 of all bytes that the reader still gives, read through the buffer.
fn crc_of_rest<R: Read>(reader: &mut R, buffer: &mut [u8]) -> io::Result<u32>
    requires { 0 < length buffer.old }
    ensures { IfOk result (λ crc. IfSome (R.remaining reader.old) (λ bytes. crc ≡ crc_of bytes)) }
{
    let mut crc = Running::new();
    for _ in 0..u64::MAX {
        let count = reader.read(buffer)?;
        if count == 0 {
            return Ok(crc.end());
        }
        crc.add(&buffer[..count]);
    }
    Err(ErrorKind::FileTooLarge.into())
}

fn main(rt: HostRuntime) -> io::Result<()> {
    let mut buffer = vec![in rt.alloc(); 0u8; PIECE]?;
    let crc = crc_of_rest(&mut rt.reader(), &mut buffer)?;
    println!(rt; "{crc:08x}")
}
