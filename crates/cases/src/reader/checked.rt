// What is not there is refused here, and so is a number that is no byte.
ghost use Rattle.std.specs.Prelude.{◌≡◌, ◌<◌, ◌≤◌, drop, length, IfErr, MatchResult};
ghost use Rattle.std.specs.Int.{w32, from_le_bytes, cast_signed};
ghost use Rattle.cases.specs.declared.reader.CaseError.TheVariants.{EndsTooEarly, OutOfMemory};
ghost use Rattle.cases.specs.Reading.{passed, rest, Read, ReadByte};
ghost use Rattle.cases.specs.Strings.{HasPart, IsPart, HasString, IsString};

use super::{CaseError, Reader};
use std::alloc::Global;

impl<'a> Reader<'a> {
    // Refused where fewer bytes are left; else passing so many leaves the others.
    fn check_left(&self, len: usize) -> Result<(), CaseError>
        ensures { MatchResult result
            (λ _. len ≤ length (rest self.now) × rest (passed len self.now) ≡ drop len (rest self.now))
            (λ e. e ≡ EndsTooEarly × length (rest self.now) < len) }
    {
        if len <= self.file.len().saturating_sub(self.next) {
            Ok(())
        } else {
            Err(CaseError::EndsTooEarly)
        }
    }

    fn take_whole(&mut self, len: usize) -> Result<&'a [u8], CaseError>
        ensures { Read len (rest self.old) (rest self.new) (λ r p. r.now ≡ p) result }
    {
        self.check_left(len)?;
        Ok(self.take(len))
    }

    pub fn number(&mut self) -> Result<u32, CaseError>
        ensures read { Read 4 (rest self.old) (rest self.new) (λ n p. n ≡ from_le_bytes w32 p) result }
        ensures kept { IfErr result (λ _. self.new ≡ self.old) }
    {
        self.check_left(4)?;
        Ok(self.number_or_zero())
    }

    pub fn signed_number(&mut self) -> Result<i32, CaseError>
        ensures read { Read 4 (rest self.old) (rest self.new)
            (λ n p. n ≡ cast_signed w32 (from_le_bytes w32 p)) result }
        ensures kept { IfErr result (λ _. self.new ≡ self.old) }
    {
        self.check_left(4)?;
        Ok(self.signed_number_or_zero())
    }

    // A number that is a byte.
    pub fn byte(&mut self) -> Result<u8, CaseError>
        ensures { ReadByte (rest self.old) (rest self.new) result }
    {
        u8::try_from(self.number()?).map_err(|_| CaseError::UnknownCode)
    }

    // A part of a byte string: its bytes, as often as it says.
    fn whole_part(&mut self, alloc: Global) -> Result<Vec<u8>, CaseError>
        ensures { MatchResult result (λ v. IsPart (rest self.old) v.items (rest self.new))
            (λ e. HasPart (rest self.old) → e ≡ OutOfMemory) }
    {
        let times = self.number()?;
        let len = self.number()?;
        let piece = self.take_whole(len as usize)?;
        Ok(piece.repeat(alloc, times as usize)?)
    }

    // A byte string, whole, whatever its length.
    pub fn bytes(&mut self, alloc: Global) -> Result<Vec<u8>, CaseError>
        ensures { MatchResult result (λ v. IsString (rest self.old) v.items (rest self.new))
            (λ e. HasString (rest self.old) → e ≡ OutOfMemory) }
    {
        let mut out = Vec::new(alloc);
        for _ in 0..self.number()? {
            out.extend_from_slice(&self.whole_part(alloc)?)?;
        }
        Ok(out)
    }
}

#[cfg(test)]
mod tests {
    use super::*;
    use std::alloc::AllocError;
    use std::test::Fail;

    // two parts, "ab" three times and "c" once, and a number behind them
    #[test]
    fn byte_string_is_read_whole(rt: HostRuntime) -> Result<(), Fail> {
        let file = b"\x02\0\0\0\x03\0\0\0\x02\0\0\0ab\x01\0\0\0\x01\0\0\0c\x07\0\0\0";
        let mut reader = Reader::new(file);
        let string = reader.bytes(rt.alloc())?;
        assert_eq!(rt; string.as_slice(), b"abababc".as_slice());
        assert_eq!(rt; reader.number()?, 7);
        // the file ends here
        assert_eq!(rt; reader.number(), Err(CaseError::EndsTooEarly));
        Ok(())
    }

    // the second of the parts lacks a byte
    #[test]
    fn cut_byte_string_is_refused(rt: HostRuntime) {
        let file = b"\x02\0\0\0\x01\0\0\0\x01\0\0\0a\x01\0\0\0\x02\0\0\0b";
        let refused = Reader::new(file).bytes(rt.alloc()).err();
        assert_eq!(rt; refused, Some(CaseError::EndsTooEarly));
    }

    #[test]
    fn numbers_are_read_or_refused(rt: HostRuntime) -> Result<(), Fail> {
        let file = b"\x07\x01\0\0\xfe\xff\xff\xff\xff\0\0\0\0\x01\0\0\x01\0\0";
        let mut reader = Reader::new(file);
        assert_eq!(rt; reader.number()?, 263);
        assert_eq!(rt; reader.signed_number()?, -2);
        assert_eq!(rt; reader.byte()?, 255);
        // 256 is no byte, and three bytes are no number
        assert_eq!(rt; reader.byte(), Err(CaseError::UnknownCode));
        assert_eq!(rt; reader.signed_number(), Err(CaseError::EndsTooEarly));
        assert_eq!(rt; reader.byte(), Err(CaseError::EndsTooEarly));
        Ok(())
    }

    #[test]
    fn errors_are_shown_in_words(rt: HostRuntime) -> Result<(), Fail> {
        let shown = format!(in rt.alloc(); "{}", CaseError::EndsTooEarly)?;
        assert_eq!(rt; shown.as_str(), "the file of cases ends too early");
        let error = CaseError::from(AllocError);
        let shown = format!(in rt.alloc(); "{error}")?;
        assert_eq!(rt; shown.as_str(), "there is no memory for a case");
        Ok(())
    }
}
