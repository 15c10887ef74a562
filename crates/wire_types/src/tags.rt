//! Tagged fields (KIP-482), which are skipped where they are read and of which none are written.

ghost use Rattle.std.specs.Io.{StartsWith};
ghost use Rattle.std.specs.Prelude.{◌≡◌, ◌+◌, ◌<◌, ◌^◌, OnOk, OnErr, Ok, Err};
ghost use Rattle.wire_types.specs.Reading.{Takes, skipped_if_found, front_at, many_at};
ghost use Rattle.wire_types.specs.Spelling.{many_written};
ghost use Rattle.wire_types.specs.Schema.{field, tags};

use crate::cursor::Cursor;
use crate::fault::Malformed;
use crate::varints::write_uvarint;
use std::alloc::AllocError;

impl<'a> Cursor<'a> {
    /// Reads past one tagged field: its tag, its size, and as many bytes as its size tells. Any tag is taken, and tags needn't
    /// rise.
    #[tactic(auto, unfolding(crate::specs::Reading::after_count_at, crate::specs::Reading::front_at))]
    fn skip_field(&mut self) -> Result<(), Malformed>
        ensures { Takes (skipped_if_found (field.reading self.old)) result self.new }
    {
        self.read_uvarint()?;
        let size = self.read_uvarint()?;
        self.read_front(size as usize)?;
        Ok(())
    }

    /// Reads past `count` tagged fields, without the number before them.
    fn skip_fields(&mut self, count: u32) -> Result<(), Malformed>
        ensures { Takes (skipped_if_found (many_at field.reading count self.old)) result self.new }
    {
        for _ in 0..count {
            self.skip_field()?;
        }
        Ok(())
    }

    /// Reads past a section of tagged fields: their number as an UNSIGNED_VARINT, and the fields, whatever they hold.
    /// `Malformed::Short` for a number above that of the bytes left.
    #[tactic(auto, unfolding(crate::specs::Reading::after_count_at, crate::specs::Reading::items_at))]
    pub fn skip_tags(&mut self) -> Result<(), Malformed>
        ensures { Takes (tags.reading self.old) result self.new }
    {
        let count = self.read_uvarint()?;
        if self.len() < count as usize {
            return Err(Malformed::Short);
        }
        self.skip_fields(count)
    }
}

/// Appends an empty section of tagged fields, which is one byte.
#[tactic(auto, unfolding(crate::specs::Spelling::after_count_written, crate::specs::Spelling::many_written))]
pub fn write_no_tags(out: &mut Vec<u8>) -> Result<(), AllocError>
    ensures ok { OnOk result (out.new.items ≡ tags.put out.old.items tt) }
    ensures err { OnErr result (out.new.items ≡ out.old.items) }
    ensures grown { StartsWith out.new.items out.old.items }
{
    write_uvarint(out, 0)
}
