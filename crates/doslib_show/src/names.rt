//! The names that have an index in a module, as far as its records have come.

ghost use Rattle.std.specs.Prelude.{◌≡◌, [], OnOk, map};
ghost use Rattle.omf_extended.specs.View.{extended_view};
ghost use Rattle.omf_library.specs.Names.{texts};
ghost use Rattle.omf_record.specs.View.{view};
ghost use Rattle.omf_wide.specs.View.{said_view};
ghost use Rattle.doslib_show.specs.Meaning.{names_after};
ghost use Rattle.doslib_show.specs.Names as spec;
ghost use Rattle.doslib_show.specs.inside.Meaning.{meaning_view};
ghost use Rattle.doslib_show.specs.inside.Parts.{plain_names};

use crate::meaning::Meaning;
use omf_extended::Extended;
use omf_library::listed_name;
use omf_record::{External, Record};
use omf_wide::{Communal, ListedExternal, Said};
use std::alloc::{AllocError, Allocator};

/// Names by their indexes, which count from 1. A segment or a group has an empty name where its own index has none.
#[derive(Drop)]
pub(crate) struct Names<'a, A: Allocator> {
    /// Those of LNAMES and LLNAMES.
    pub(crate) listed: Vec<&'a [u8], A>,
    pub(crate) segments: Vec<&'a [u8], A>,
    pub(crate) groups: Vec<&'a [u8], A>,
    pub(crate) externals: Vec<&'a [u8], A>,
}

/// The name with an index of these, and an empty one where it has none.
fn name_of<'a>(names: &[&'a [u8]], index: u16) -> &'a [u8]
    ensures { result.now ≡ spec.name_of (texts names.now) index }
{
    listed_name(names, index).unwrap_or(&[])
}

impl<'a, A: Allocator + Copy> Names<'a, A> {
    /// Before the first record.
    pub(crate) fn new(alloc: A) -> Names<'a, A>
        ensures { plain_names result ≡ spec.no_names }
    {
        Names {
            listed: Vec::new(alloc),
            segments: Vec::new(alloc),
            groups: Vec::new(alloc),
            externals: Vec::new(alloc),
        }
    }

    /// Adds names of a list.
    fn add_listed(&mut self, names: &[&'a [u8]]) -> Result<(), AllocError>
        ensures { OnOk result (plain_names self.new ≡ spec.with_listed (plain_names self.old) (texts names.now)) }
    {
        self.listed.extend_from_slice(names)
    }

    /// Adds a segment, by the index of its name.
    fn add_segment(&mut self, name: u16) -> Result<(), AllocError>
        ensures { OnOk result (plain_names self.new ≡ spec.with_segment (plain_names self.old) name) }
    {
        let name = name_of(&self.listed, name);
        self.segments.push(name)?;
        Ok(())
    }

    /// Adds a group, by the index of its name.
    fn add_group(&mut self, name: u16) -> Result<(), AllocError>
        ensures { OnOk result (plain_names self.new ≡ spec.with_group (plain_names self.old) name) }
    {
        let name = name_of(&self.listed, name);
        self.groups.push(name)?;
        Ok(())
    }

    /// Adds externals.
    fn add_externals(&mut self, externals: &[External<'a>]) -> Result<(), AllocError>
        ensures { OnOk result (plain_names self.new
            ≡ spec.with_externals (plain_names self.old) (map (λ e. e.name.now) externals.now)) }
    {
        for external in externals {
            self.externals.push(external.name)?;
        }
        Ok(())
    }

    /// Adds externals that have names of the list.
    fn add_listed_externals(&mut self, externals: &[ListedExternal]) -> Result<(), AllocError>
        ensures { OnOk result (plain_names self.new ≡ spec.with_externals (plain_names self.old)
            (map (λ e. spec.name_of (texts self.old.listed.items) e.name) externals.now)) }
    {
        for external in externals {
            let name = name_of(&self.listed, external.name);
            self.externals.push(name)?;
        }
        Ok(())
    }

    /// Adds the names of one of the fourteen.
    #[tactic(auto, unfolding(omf_record::specs::View::view))]
    fn add_record(&mut self, record: &Record<'a, A>) -> Result<(), AllocError>
        ensures { OnOk result (plain_names self.new
            ≡ spec.names_behind_record (plain_names self.old) (view «record».now)) }
    {
        match record {
            Record::Lnames { names } => self.add_listed(names),
            Record::Segdef { segment } => self.add_segment(segment.name),
            Record::Grpdef { name, .. } => self.add_group(*name),
            Record::Extdef { names, .. } => self.add_externals(names),
            _ => Ok(()),
        }
    }

    /// Adds the names of a record that says this.
    #[tactic(auto, unfolding(omf_wide::specs::View::said_view, crate::specs::Names::names_behind))]
    fn add(&mut self, said: &Said<'a, A>) -> Result<(), AllocError>
        ensures { OnOk result (plain_names self.new ≡ spec.names_behind (plain_names self.old) (said_view said.now)) }
    {
        match said {
            Said::Plain(record) => self.add_record(record),
            Said::Cextdef { names } => self.add_listed_externals(names),
            Said::Segdef { segment, .. } => self.add_segment(segment.name),
            Said::Fixupp { .. } | Said::Modend { .. } => Ok(()),
        }
    }
    /// Adds communal variables.
    fn add_communals(&mut self, communals: &[Communal<'a>]) -> Result<(), AllocError>
        ensures { OnOk result (plain_names self.new
            ≡ spec.with_externals (plain_names self.old) (map (λ c. c.name.now) communals.now)) }
    {
        for communal in communals {
            self.externals.push(communal.name)?;
        }
        Ok(())
    }

    /// Adds the names of a record of a type that came after Intel's.
    #[tactic(auto, unfolding(omf_extended::specs::View::extended_view))]
    fn add_more(&mut self, more: &Extended<'a, A>) -> Result<(), AllocError>
        ensures { OnOk result (plain_names self.new
            ≡ spec.names_behind_more (plain_names self.old) (extended_view more.now)) }
    {
        match more {
            Extended::Comdef { communals, .. } => self.add_communals(communals),
            _ => Ok(()),
        }
    }

    /// Adds the names of a record that means this.
    pub(crate) fn follow(&mut self, meaning: &Meaning<'a, A>) -> Result<(), AllocError>
        ensures { OnOk result (plain_names self.new
            ≡ names_after (plain_names self.old) (meaning_view meaning.now)) }
    {
        match meaning {
            Meaning::Says(said) => self.add(said),
            Meaning::SaysMore(more) => self.add_more(more),
            Meaning::Comments { .. } | Meaning::Unknown | Meaning::Wrong { .. } => Ok(()),
        }
    }
}
