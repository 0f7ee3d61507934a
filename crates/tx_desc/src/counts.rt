//! The counts of names: raised where a descriptor gets to name a description, lowered where one
//! gives its name up.
ghost use Rattle.std.specs.Prelude.{◌≡◌, ◌<◌, ℕ, List, [], ◌∷◌, None, option_map, slice_index_or};
ghost use Rattle.tx_model.specs.Descriptors.{description_removals, open_in};
ghost use Rattle.tx_model.specs.State.{State, with_writes};
ghost use Rattle.tx_desc.specs.Counts.{Agrees, HasNamed, HasSpace, IsBacked, KeepsCounts, count_in};
ghost use Rattle.tx_desc.specs.Descriptions.{HasDescs, recounted, with_more, with_fewer, with_flag};
ghost use Rattle.tx_desc.specs.Places.{Descriptors};
ghost use Rattle.tx_desc.specs.Plans.{AreNumbers, IsOnceEach, desc_fewer, given_fewer, put_descs};

use crate::descs::Descs;
use crate::given::Given;
use crate::opened::Opened;
use crate::plans::NewDesc;
use crate::table::FdTable;
use arrayvec::ArrayVec;
use tx_base::{DESCRIPTIONS, DESCRIPTORS, DescNo};

/// Whether names come or are given up.
#[derive(Clone, Copy)]
enum Names {
    More,
    Fewer,
}

impl Descs {
    /// What the descriptions become where one more process has these descriptors (POSIX.1-2017,
    /// XSH, fork()): each one that they name, once, with these names more. Nothing is changed.
    pub fn plan_raise_all(&self, table: &FdTable) -> ArrayVec<NewDesc, DESCRIPTORS>
        requires { IsBacked 16 table.now self.now }
        ensures counts { KeepsCounts [] table.now self.now (put_descs result.items self.now) }
        ensures descriptions { (S : State) → HasDescs S self.now →
            HasDescs S (put_descs result.items self.now) }
        ensures once { IsOnceEach table.now result.items }
        ensures numbers { AreNumbers result.items }
    {
        self.plan_all(table, Names::More)
    }

    /// What the descriptions become where one process fewer has these descriptors, as one that ends
    /// (POSIX.1-2017, XSH, _exit()): each one that they name, once, with these names fewer. Nothing
    /// is changed.
    pub fn plan_drop_all(&self, table: &FdTable) -> ArrayVec<NewDesc, DESCRIPTORS>
        requires { IsBacked 16 table.now self.now }
        ensures counts { KeepsCounts table.now [] self.now (put_descs result.items self.now) }
        ensures descriptions { (others : List Descriptors) (S : State) →
            Agrees (table.now ∷ others) self.now → HasDescs S self.now → HasNamed S others →
            HasDescs (with_writes (description_removals (open_in table.now) S) S)
            (put_descs result.items self.now) }
        ensures once { IsOnceEach table.now result.items }
        ensures numbers { AreNumbers result.items }
    {
        self.plan_all(table, Names::Fewer)
    }

    /// One more process has these descriptors: each description that they name has these names more
    /// (POSIX.1-2017, XSH, fork()).
    #[tactic(auto, using(crate::proofs::Counting::keeps_come))]
    pub fn raise_all(&mut self, table: &FdTable)
        requires { IsBacked 16 table.now self.old }
        ensures counts { (others : List Descriptors) → Agrees others self.old →
            Agrees (table.now ∷ others) self.new }
        ensures descriptions { (S : State) → HasDescs S self.old → HasDescs S self.new }
    {
        let plan = self.plan_raise_all(table);
        self.put_all(plan.as_slice());
    }

    /// One process fewer has these descriptors, as one that ends (POSIX.1-2017, XSH, _exit()): each
    /// description that they name has these names fewer, and goes with its last one.
    #[tactic(auto, using(crate::proofs::Counting::keeps_go))]
    pub fn drop_all(&mut self, table: &FdTable)
        requires { IsBacked 16 table.now self.old }
        ensures counts { (others : List Descriptors) → Agrees (table.now ∷ others) self.old →
            Agrees others self.new }
        ensures descriptions { (others : List Descriptors) (S : State) →
            Agrees (table.now ∷ others) self.old → HasDescs S self.old → HasNamed S others →
            HasDescs (with_writes (description_removals (open_in table.now) S) S) self.new }
    {
        let plan = self.plan_drop_all(table);
        self.put_all(plan.as_slice());
    }

    /// What the descriptions become where all names of these descriptors come or are given up.
    fn plan_all(&self, table: &FdTable, names: Names) -> ArrayVec<NewDesc, DESCRIPTORS>
        requires { IsBacked 16 table.now self.now }
        ensures after { (d : ℕ) → slice_index_or (put_descs result.items self.now) d None
            ≡ recounted names (count_in d table.now) (slice_index_or self.now d None) }
        ensures once { IsOnceEach table.now result.items }
        ensures numbers { AreNumbers result.items }
    {
        table.sized();
        self.sized();
        if !table.has_open() {
            return ArrayVec::new(); // so it is with most processes that fork or end
        }
        let mut left = self.counted(table);
        let mut plan = ArrayVec::new();
        for fd in 0..DESCRIPTORS {
            if let Some(d) = table.get(fd) {
                let count = left[d.0 as usize];
                if count > 0 {
                    left[d.0 as usize] = 0;
                    plan.push(self.plan_one(table, d, count, names));
                }
            }
        }
        plan
    }

    /// How many of these descriptors name each description.
    fn counted(&self, table: &FdTable) -> [u16; DESCRIPTIONS]
        requires { IsBacked 16 table.now self.now }
        ensures { (d : ℕ) → slice_index_or result d 0 ≡ count_in d table.now }
    {
        table.sized();
        self.sized();
        let mut counts = [0; DESCRIPTIONS];
        for fd in 0..DESCRIPTORS {
            if let Some(d) = table.get(fd) {
                counts[d.0 as usize] += 1;
            }
        }
        counts
    }

    /// What a description becomes that so many of these descriptors name.
    fn plan_one(&self, table: &FdTable, d: DescNo, count: u16, names: Names) -> NewDesc
        requires room { IsBacked 16 table.now self.now }
        requires named { 0 < count_in d.0 table.now }
        requires counted { count ≡ count_in d.0 table.now }
        ensures number { result.number ≡ d }
        ensures opened { result.opened
            ≡ recounted names (count_in d.0 table.now) (slice_index_or self.now d.0 None) }
    {
        table.sized();
        let opened = match names {
            Names::More => self.raised(d, count),
            Names::Fewer => self.lowered(d, count),
        };
        NewDesc { number: d, opened }
    }

    /// A description with so many names more.
    pub(crate) fn raised(&self, d: DescNo, count: u16) -> Option<Opened>
        requires { HasSpace count (slice_index_or self.now d.0 None) }
        ensures { result ≡ with_more count (slice_index_or self.now d.0 None) }
    {
        let opened = self.get(d)?;
        Some(opened.more(count))
    }

    /// A description with so many names fewer; nothing where no name is left.
    pub(crate) fn lowered(&self, d: DescNo, count: u16) -> Option<Opened>
        ensures { result ≡ with_fewer count (slice_index_or self.now d.0 None) }
    {
        let opened = self.get(d)?;
        opened.fewer(count)
    }

    /// A description with O_NONBLOCK set or not.
    pub(crate) fn flagged(&self, d: DescNo, on: bool) -> Option<Opened>
        ensures { result ≡ with_flag on (slice_index_or self.now d.0 None) }
    {
        let opened = self.get(d)?;
        Some(Opened {
            desc: opened.desc.with_nonblock(on),
            names: opened.names,
        })
    }

    /// What a description becomes where one name of it is given up, and what goes with that name.
    pub(crate) fn one_fewer(&self, d: DescNo) -> (NewDesc, Given)
        ensures desc { result.0 ≡ desc_fewer self.now d }
        ensures given { result.1 ≡ given_fewer self.now d }
    {
        let opened = self.lowered(d, 1);
        let gone = match opened {
            Some(_) => None,
            None => self.get(d).map(|opened| opened.desc),
        };
        (NewDesc { number: d, opened }, Given { number: d, gone })
    }

    /// The same of the name that a descriptor has, if it has one.
    pub(crate) fn given_up(&self, name: Option<DescNo>) -> (Option<NewDesc>, Option<Given>)
        ensures desc { result.0 ≡ option_map (desc_fewer self.now) name }
        ensures given { result.1 ≡ option_map (given_fewer self.now) name }
    {
        match name {
            Some(d) => {
                let (desc, given) = self.one_fewer(d);
                (Some(desc), Some(given))
            }
            None => (None, None),
        }
    }
}
