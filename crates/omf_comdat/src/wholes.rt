//! COMDATs by their records.

ghost use Rattle.std.specs.Prelude.{◌≡◌, ◌≤◌, length, take};
ghost use Rattle.omf_comdat.specs.Comdats.{record_said, records_said};
ghost use Rattle.omf_comdat.specs.Fates as spec;

use crate::records::ComdatRecord;

/// Whether a record goes on with the COMDAT of this name.
fn goes_on(name: &[u8], other: &ComdatRecord<'_>) -> bool
    ensures { result ≡ spec.goes_on name.now (record_said other.now) }
{
    other.says.continuation && name == other.name
}

/// How many records at the front go on with the COMDAT of this name.
fn count_going_on(name: &[u8], behind: &[ComdatRecord<'_>]) -> usize
    ensures within { result ≤ length behind.now }
    ensures count { records_said (take result behind.now) ≡ spec.going_on name.now (records_said behind.now) }
{
    let mut count = 0;
    while count < behind.len() && goes_on(name, &behind[count]) {
        count += 1;
    }
    count
}

/// The COMDAT that the first of these records opens: that record, and those right behind it that go on with it.
pub(crate) fn whole<'m, 'a>(records: &'m [ComdatRecord<'a>]) -> &'m [ComdatRecord<'a>]
    ensures { records_said result.now ≡ spec.whole (records_said records.now) }
{
    let [first, behind @ ..] = records else {
        return records;
    };
    let more = count_going_on(first.name, behind);
    &records[..more + 1]
}

/// The length of a COMDAT in bytes: where those of its data end that end last.
pub(crate) fn size(whole: &[ComdatRecord<'_>]) -> u64
    ensures { result ≡ spec.size (records_said whole.now) }
{
    let mut size = 0;
    let mut rest = whole;
    while let [first, behind @ ..] = rest {
        size = size.max(u64::from(first.says.offset) + first.bytes.len() as u64);
        rest = behind;
    }
    size
}

/// Whether the data of two records are the same.
fn same_part(one: &ComdatRecord<'_>, other: &ComdatRecord<'_>) -> bool
    ensures { result ≡ spec.same_part (record_said one.now) (record_said other.now) }
{
    one.says.iterated == other.says.iterated
        && one.says.offset == other.says.offset
        && one.bytes == other.bytes
}

/// Whether the data of two COMDATs are the same, record by record.
pub(crate) fn same_data(one: &[ComdatRecord<'_>], other: &[ComdatRecord<'_>]) -> bool
    ensures { result ≡ spec.same_data (records_said one.now) (records_said other.now) }
{
    let mut rest = one;
    let mut left = other;
    while let [first, behind @ ..] = rest {
        let [beside, more @ ..] = left else {
            return false;
        };
        if !same_part(first, beside) {
            return false;
        }
        rest = behind;
        left = more;
    }
    left.is_empty()
}
