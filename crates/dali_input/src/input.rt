ghost use Rattle.std.specs.Prelude.{◌≡◌, ◌<◌, ◌≤◌, true, false, IfOk, IfErr, OnErr, OnOk, length};
ghost use Rattle.std.specs.Io.KnownBytes.{IsAtEnd, Keeps, ReadConsumes};
ghost use Rattle.serde_json.specs.View.{view};
ghost use Rattle.dali_input.specs.Input.{IsJson, IsNoJson, IsReadFailure, ReadsInput, ReadsAtMost, ReadsMore, state_of};

use crate::fault::InputFault;
use serde_json::Value;
use std::alloc::Global;
use std::io::{ErrorKind, Read};

// How many bytes are read at a time.
const CHUNK: usize = 65536;

/// A reader that knows whether it has failed. Later calls give nothing more then, and leave its reader alone.
#[derive(Drop)]
pub struct Input<R> {
    reader: R,
    // Of what kind the read was that has failed, if one has.
    cause: Option<ErrorKind>,
}

impl<R: Read> Input<R> {
    ghost use Rattle.std.specs.Prelude.{is_some};
    ghost use Rattle.dali_input.specs.Input.{IsReadFailure, IsReadFault, state_of};

    /// An input from the reader, which hasn't failed.
    pub fn new(reader: R) -> Input<R>
        ensures left { (state_of R.remaining result).left ≡ R.remaining reader }
        ensures failed { (state_of R.remaining result).failed ≡ false }
    {
        Input {
            reader,
            cause: None,
        }
    }

    /// The kind of its reader's failure, if it has failed.
    pub fn cause(&self) -> Option<ErrorKind>
        ensures { is_some result ≡ (state_of R.remaining self.now).failed }
    {
        self.cause
    }

    // A read failed so: for want of memory, or the reader has failed from then on.
    fn fail(&mut self, kind: ErrorKind) -> InputFault
        ensures fault { IsReadFault kind result (is_some self.old.cause) (is_some self.new.cause) }
        ensures kept { self.new.reader ≡ self.old.reader }
    {
        match kind {
            ErrorKind::OutOfMemory => InputFault::Memory,
            kind => {
                self.cause = Some(kind);
                InputFault::File
            }
        }
    }

    // Reads once, over the chunk. A read that a signal interrupts is made again, so often that no program lives to see
    // the end of it. InputFault 20 Memory if the reader has no memory, else 21 File if it failed.
    fn read(&mut self, chunk: &mut [u8]) -> Result<usize, InputFault>
        ensures bound { IfOk result (λ count. count ≤ length chunk.new) }
        ensures bytes { ReadConsumes (R.remaining self.old.reader) (R.remaining self.new.reader) result chunk.new }
        ensures unfailed { OnOk result (self.new.cause ≡ self.old.cause) }
        ensures err { IfErr result (IsReadFailure (state_of R.remaining self.old) (state_of R.remaining self.new)) }
        ensures failed_before { is_some self.old.cause ≡ true → self.new ≡ self.old }
    {
        if self.cause.is_some() {
            return Err(InputFault::File);
        }
        for _ in 0..u64::MAX {
            match self.reader.read(chunk) {
                Ok(count) => return Ok(count),
                Err(error) => match error.kind() {
                    ErrorKind::Interrupted => {}
                    kind => return Err(self.fail(kind)),
                },
            }
        }
        Err(self.fail(ErrorKind::Interrupted))
    }
}

/// All that the reader has, or its first bytes up to one past the limit, any number: an input with more
/// bytes than the limit is too big, and no more of it is read.
///
/// InputFault 20 Memory if there is no memory, 21 File if the reader has failed.
pub fn read_input<R: Read>(
    alloc: Global,
    input: &mut Input<R>,
    limit: u32,
) -> Result<Vec<u8>, InputFault>
    ensures ok { IfOk result (λ bytes.
        ReadsInput limit (state_of R.remaining input.old) (state_of R.remaining input.new) bytes.items) }
    ensures err { IfErr result (IsReadFailure (state_of R.remaining input.old) (state_of R.remaining input.new)) }
    ensures read { ReadsAtMost limit (state_of R.remaining input.old) (state_of R.remaining input.new) }
{
    let most = limit as usize + 1;
    let mut bytes = Vec::new(alloc);
    let mut chunk = [0; CHUNK];
    while bytes.len() < most {
        let room = (most - bytes.len()).min(CHUNK);
        if !read_more(input, &mut bytes, &mut chunk[..room])? {
            break;
        }
    }
    Ok(bytes)
}

// Reads once, over the chunk, and appends what it read to the bytes. Whether that was anything.
fn read_more<R: Read>(
    input: &mut Input<R>,
    bytes: &mut Vec<u8>,
    chunk: &mut [u8],
) -> Result<bool, InputFault>
    requires { 0 < length chunk.old }
    ensures more { IfOk result (λ more. more ≡ true → length bytes.old.items < length bytes.new.items) }
    ensures ended { IfOk result (λ more. more ≡ false → IsAtEnd (R.remaining input.new.reader)) }
    ensures ok { OnOk result (ReadsMore (length chunk.old) (state_of R.remaining input.old)
        (state_of R.remaining input.new) bytes.old.items bytes.new.items) }
    ensures err { IfErr result (IsReadFailure (state_of R.remaining input.old) (state_of R.remaining input.new)) }
    ensures kept { OnErr result (Keeps (R.remaining input.old.reader) (R.remaining input.new.reader)) }
{
    // Room is made first, so that no byte is lost for want of memory.
    if bytes.reserve(chunk.len()).is_err() {
        return Err(InputFault::Memory);
    }
    let count = input.read(chunk)?;
    match bytes.extend_from_slice(&chunk[..count]) {
        Ok(()) => Ok(count != 0),
        Err(_) => unreachable!(),
    }
}

/// The JSON value of an input.
///
/// InputFault 13 TooBig if the input has more bytes than the limit, 11 Json if they are no JSON, 20 Memory if there is
/// no memory.
pub fn json_of(alloc: Global, input: &[u8], limit: u32) -> Result<Value, InputFault>
    ensures ok { IfOk result (λ json. IsJson limit input.now (view json)) }
    ensures err { IfErr result (IsNoJson limit input.now) }
{
    if input.len() > limit as usize {
        return Err(InputFault::TooBig);
    }
    match Value::from_slice(alloc, input) {
        Ok(json) => Ok(json),
        Err(error) if error.is_memory() => Err(InputFault::Memory),
        Err(_) => Err(InputFault::Json),
    }
}
