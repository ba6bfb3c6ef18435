//! Filters with their names.

ghost use Rattle.std.specs.Prelude.{◌≡◌, ◌<◌, ◌∷◌, ◌++◌, [], false, length, get_or, Some, bytes_eq, IfOk, OnOk, OnErr};
ghost use Rattle.std.specs.List.{list_any, slice_get};
ghost use Rattle.gr_filter.specs.Tree.{tree_of};
ghost use Rattle.gr_match.specs.Matches.{matches};
ghost use Rattle.gr_match_text.specs.Matching.{NamedFilter, filter_names, filter_trees};

use gr_event::{Event, Numbers};
use gr_filter::Filter;
use gr_match::MatchTree;
use indexmap::IndexSet;
use std::alloc::{AllocError, Global};
use std::marker::Model;

/// How many filters a match text may have.
pub(crate) const MAX_FILTERS: usize = 1024;

/// Filters with their names, in the order of their lines, seen as a list of names and trees.
#[derive(Drop)]
pub struct FilterList {
    names: IndexSet<Vec<u8>>,
    tree: MatchTree,
}

impl Model for FilterList {
    ghost use Rattle.std.specs.Prelude.{◌≡◌, List, length};
    ghost use Rattle.std.specs.List.{zip};
    ghost use Rattle.std.specs.Coded.{codes};
    ghost use Rattle.gr_match.specs.Code.{tree_code};
    ghost use Rattle.gr_match_text.specs.Matching.{NamedFilter};
    ghost use Rattle.gr_match_text.specs.Keys.{key_texts};

    ghost Value = { List NamedFilter };

    ghost coded = { Prim.hlevel (codes, tree_code) };

    ghost view = { λ l. zip (key_texts l.names.keys) l.tree };

    ghost invariant = { λ l. length (key_texts l.names.keys) ≡ length l.tree };
}

impl FilterList {
    /// No filters. Takes no memory.
    pub(crate) fn new(alloc: Global) -> FilterList
        ensures { result ≡ [] }
    {
        FilterList {
            names: IndexSet::new(alloc),
            tree: MatchTree::new(alloc),
        }
    }

    /// How many filters there are.
    pub fn len(&self) -> usize
        ensures { result ≡ length self.now }
    {
        self.names.len()
    }

    /// Whether a filter has this name.
    pub(crate) fn has(&self, name: &[u8]) -> bool
        ensures { result ≡ list_any (bytes_eq name.now) (filter_names self.now) }
    {
        self.names.contains(name)
    }

    /// Puts a copy of a filter with its name at the end. At want of memory the list stays as it was.
    pub(crate) fn push(
        &mut self,
        alloc: Global,
        name: &[u8],
        filter: &Filter,
    ) -> Result<(), AllocError>
        requires few { length self.old < MAX_FILTERS }
        requires new { list_any (bytes_eq name.now) (filter_names self.old) ≡ false }
        ensures ok { OnOk result (self.new ≡ self.old ++ (name.now, tree_of filter.now) ∷ []) }
        ensures err { OnErr result (self.new ≡ self.old) }
    {
        let copy = Vec::from_slice(alloc, name)?;
        self.names.reserve(1)?;
        self.tree.add(filter)?;
        self.names.insert_full(copy)?;
        Ok(())
    }

    /// The name of the filter at a place, from 0 on; nothing where there is none.
    pub fn name(&self, place: usize) -> &[u8]
        ensures { result.now ≡ get_or (filter_names self.now) place [] }
    {
        match self.names.get_index(place) {
            Some(name) => name.as_slice(),
            None => &[],
        }
    }

    /// The filter at a place, from 0 on.
    pub fn filter(&self, place: usize) -> &Filter
        requires { place < length self.now }
        ensures { slice_get (filter_trees self.now) place ≡ Some (tree_of result.now) }
    {
        self.tree.filter(place)
    }

    /// The places, from 0 on and rising, of exactly the filters that match the event.
    pub(crate) fn matches(&self, event: &Event) -> Result<Numbers, AllocError>
        ensures { IfOk result (λ places. places ≡ matches (filter_trees self.now) event.now) }
    {
        self.tree.matches(event)
    }
}
