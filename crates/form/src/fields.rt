// The fields in byte order, each as cut, count, form: where the next one starts, or why it is refused.
ghost use Rattle.std.specs.Prelude.{◌≡◌, ◌≤◌, ◌<◌, length};
ghost use Rattle.bundle.specs.Told.{scanned};
ghost use Rattle.bundle.specs.Scan.{scan_string, scan_path, scan_name, scan_alias, scan_field, times, scan_count, scan_list, scan_use, scan_length, scan_mark, scan_end};

use bundle::limits::{ELEMENTS, SEGMENTS, width_bytes};
use bundle::{Field, Width, byte_at, count_at, text_at, word_at};
use refusal::{Cause, Refusal};

// A container by its end: a bundle, a file's items, an item. What is tested stands at `at`, and has to end by `end`.
#[derive(Clone, Copy)]
pub(crate) struct Container<'a> {
    pub bytes: &'a [u8],
    pub end: usize,
    ghost inside: { end ≤ length bytes.now },
}

impl Container<'_> {
    #[tactic(auto, unfolding(bundle::specs::Scan::scan_string))]
    pub(crate) fn string_end(&self, at: usize) -> Result<usize, Refusal>
        ensures { scanned result ≡ scan_string self.now.bytes.now self.now.end at }
    {
        if at >= self.end {
            return Err(Cause::Cut.at(at));
        }
        let n = byte_at(self.bytes, at);
        if n <= self.end - (at + 1) {
            Ok(at + 1 + n)
        } else {
            Err(Cause::Cut.at(at))
        }
    }

    #[tactic(auto, unfolding(bundle::specs::Scan::scan_formed))]
    pub(crate) fn path_end(&self, at: usize) -> Result<usize, Refusal>
        ensures { scanned result ≡ scan_path self.now.bytes.now self.now.end at }
    {
        let next = self.string_end(at)?;
        if names::is_path(text_at(self.bytes, at)) {
            Ok(next)
        } else {
            Err(Cause::BadPath.at(at))
        }
    }

    // As `path_end`, with another test and cause: with these as parameters, a closure among them, the two would be longer.
    #[tactic(auto, unfolding(bundle::specs::Scan::scan_formed))]
    pub(crate) fn name_end(&self, at: usize) -> Result<usize, Refusal>
        ensures { scanned result ≡ scan_name self.now.bytes.now self.now.end at }
    {
        let next = self.string_end(at)?;
        if names::is_identifier(text_at(self.bytes, at)) {
            Ok(next)
        } else {
            Err(Cause::BadName.at(at))
        }
    }

    #[tactic(auto, unfolding(bundle::specs::Scan::scan_alias))]
    fn alias_end(&self, at: usize) -> Result<usize, Refusal>
        ensures { scanned result ≡ scan_alias self.now.bytes.now self.now.end at }
    {
        if at < self.end && byte_at(self.bytes, at) == 0 {
            return Ok(at + 1);
        }
        self.name_end(at)
    }

    #[tactic(auto, unfolding(bundle::specs::Scan::scan_field))]
    fn element_end(&self, at: usize) -> Result<usize, Refusal>
        ensures { scanned result ≡ scan_field Field.Element self.now.bytes.now self.now.end at }
    {
        let alias = self.name_end(at)?;
        self.alias_end(alias)
    }

    #[tactic(auto, unfolding(bundle::specs::Scan::scan_field))]
    fn remapping_end(&self, at: usize) -> Result<usize, Refusal>
        ensures { scanned result ≡ scan_field Field.Remapping self.now.bytes.now self.now.end at }
    {
        let name = self.path_end(at)?;
        let target = self.string_end(name)?;
        self.path_end(target)
    }

    #[tactic(auto, unfolding(bundle::specs::Scan::scan_field))]
    fn field_end(&self, at: usize, field: Field) -> Result<usize, Refusal>
        ensures { scanned result ≡ scan_field field self.now.bytes.now self.now.end at }
    {
        match field {
            Field::Path => self.path_end(at),
            Field::Name => self.name_end(at),
            Field::Element => self.element_end(at),
            Field::Remapping => self.remapping_end(at),
        }
    }

    // n fields of one kind.
    #[tactic(auto, unfolding(bundle::specs::Scan::times))]
    fn fields_end(&self, at: usize, field: Field, n: usize) -> Result<usize, Refusal>
        ensures { scanned result ≡ times n (scan_field field self.now.bytes.now self.now.end) at }
    {
        let mut a = at;
        for _ in 0..n {
            a = self.field_end(a, field)?;
        }
        Ok(a)
    }

    // A count of a width, between two limits.
    #[tactic(auto, unfolding(bundle::specs::Scan::scan_count))]
    pub(crate) fn count_end(
        &self,
        at: usize,
        width: Width,
        low: usize,
        high: usize,
    ) -> Result<usize, Refusal>
        ensures { scanned result ≡ scan_count width low high self.now.bytes.now self.now.end at }
    {
        let bytes = width_bytes(width);
        if at >= self.end || self.end - at < bytes {
            return Err(Cause::Cut.at(at));
        }
        let n = count_at(self.bytes, at, width);
        if n < low || n > high {
            return Err(Cause::TooMany.at(at));
        }
        Ok(at + bytes)
    }

    // A count up to a limit, and as many fields.
    #[tactic(auto, unfolding(bundle::specs::Scan::scan_list))]
    pub(crate) fn list_end(
        &self,
        at: usize,
        width: Width,
        field: Field,
        limit: usize,
    ) -> Result<usize, Refusal>
        ensures { scanned result ≡ scan_list width field limit self.now.bytes.now self.now.end at }
    {
        let first = self.count_end(at, width, 0, limit)?;
        self.fields_end(first, field, count_at(self.bytes, at, width))
    }

    // A use's segments and elements.
    #[tactic(auto, unfolding(bundle::specs::Scan::scan_use))]
    pub(crate) fn use_end(&self, at: usize) -> Result<usize, Refusal>
        ensures { scanned result ≡ scan_use self.now.bytes.now self.now.end at }
    {
        let elements = self.list_end(at, Width::Byte, Field::Name, SEGMENTS)?;
        self.list_end(elements, Width::Byte, Field::Element, ELEMENTS)
    }

    // A 2-byte length: where what it counts ends.
    #[tactic(auto, unfolding(bundle::specs::Scan::scan_length))]
    pub(crate) fn length_end(&self, at: usize) -> Result<usize, Refusal>
        requires { at ≤ self.now.end }
        ensures { scanned result ≡ scan_length self.now.bytes.now self.now.end at }
    {
        if at + 2 <= self.end {
            let n = word_at(self.bytes, at);
            if n <= self.end - (at + 2) {
                return Ok(at + 2 + n);
            }
        }
        Err(Cause::Cut.at(at))
    }

    // A kind or a visibility.
    #[tactic(auto, unfolding(bundle::specs::Scan::scan_mark))]
    pub(crate) fn mark_end(&self, at: usize, low: usize, high: usize) -> Result<usize, Refusal>
        ensures { scanned result ≡ scan_mark low high self.now.bytes.now self.now.end at }
    {
        if at >= self.end {
            return Err(Cause::Cut.at(at));
        }
        let n = byte_at(self.bytes, at);
        if n < low || n > high {
            return Err(Cause::BadKind.at(at));
        }
        Ok(at + 1)
    }
}

// A count up to a limit, and as many fields.
pub fn list_end(
    s: &[u8],
    at: usize,
    end: usize,
    width: Width,
    field: Field,
    limit: usize,
) -> Result<usize, Refusal>
    requires { end ≤ length s.now }
    ensures { scanned result ≡ scan_list width field limit s.now end at }
{
    Container { bytes: s, end }.list_end(at, width, field, limit)
}

// No bytes are left over.
#[tactic(auto, unfolding(bundle::specs::Scan::scan_end))]
pub fn nothing_left(at: usize, end: usize) -> Result<usize, Refusal>
    ensures { scanned result ≡ scan_end end at }
{
    if at == end {
        return Ok(at);
    }
    Err(Cause::Cut.at(at))
}
