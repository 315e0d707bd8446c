//! Where an event stands among those of all files.
ghost use Rattle.std.specs.Cmp.{partial_equiv_from_equiv, partial_order_from_total};
ghost use Rattle.std.specs.Cmp.Rules.{comparing};
ghost use Rattle.std.specs.Ordering.{as_partial_cmp, eq_by_cmp};
ghost use Rattle.std.proofs.Common.{rules};
ghost use Rattle.std.proofs.lemmas.Cmp.{eq_by_cmp_equiv};
ghost use Rattle.source_merge.specs.Ranks.{rank_cmp, rank_total};

use std::cmp::Ordering;

/// Where an event stands among those of all files: by its detection time, then by its file, counted from 0, then by its
/// place among all that were taken, counted from 0, which rises with its place in the file.
#[derive(Clone, Copy, Drop)]
pub(crate) struct Rank {
    pub(crate) at: u64,
    pub(crate) file: usize,
    pub(crate) place: u64,
}

impl PartialEq for Rank {
    ghost eq = { eq_by_cmp rank_cmp };

    ghost laws = { partial_equiv_from_equiv (eq_by_cmp_equiv rank_total) };

    fn eq(&self, other: &Rank) -> bool {
        self.at == other.at && self.file == other.file && self.place == other.place
    }
}

impl Eq for Rank {
    ghost laws = { eq_by_cmp_equiv rank_total };
}

impl PartialOrd for Rank {
    ghost partial_cmp = { as_partial_cmp rank_cmp };

    ghost laws = { partial_order_from_total rank_total };

    fn partial_cmp(&self, other: &Rank) -> Option<Ordering> {
        Some(self.cmp(other))
    }
}

impl Ord for Rank {
    ghost cmp = { rank_cmp };

    ghost total = { rank_total };

    ghost matches_partial_cmp = { Prim.search (comparing, rules) };

    ghost matches_eq = { Prim.search (comparing, rules) };

    #[inline(always)]
    fn cmp(&self, other: &Rank) -> Ordering {
        self.at.cmp(&other.at).then(
            self.file
                .cmp(&other.file)
                .then(self.place.cmp(&other.place)),
        )
    }
}
