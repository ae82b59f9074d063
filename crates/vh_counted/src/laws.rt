//! Laws of the definitions: the contracts of these functions.

ghost use Rattle.vh_counted.specs.Laws.{BeginsWithOne, AddCounts, ReleaseCounts, SplitKeeps, JoinKeeps, AnyHolderFirst, WholeHasAll};

use crate::object::{Counted, Ended, Holder, Opened};

/// An object begins with one holder, who has one reference and all room.
pub fn begins_with_one()
    ensures { BeginsWithOne }
{}

/// An add keeps the two sums, and the count is one more.
pub fn add_counts()
    ensures { AddCounts }
{}

/// A release keeps the two sums, and the count is one less.
pub fn release_counts()
    ensures { ReleaseCounts }
{}

/// A split keeps the two sums and the count.
pub fn split_keeps()
    ensures { SplitKeeps }
{}

/// A join keeps the two sums and the count.
pub fn join_keeps()
    ensures { JoinKeeps }
{}

/// The order of the holders is of no account.
pub fn any_holder_first()
    ensures { AnyHolderFirst }
{}

/// Beside a whole holder the others have nothing.
pub fn whole_has_all()
    ensures { WholeHasAll }
{}

fn crosses<X: Send>() {}

fn is_shared<X: Sync>() {}

/// Where its value may cross threads and be shared, an object may, and its holders may cross them.
pub fn cross_threads<T: Drop + Send + Sync>() {
    crosses::<Counted<T>>();
    is_shared::<Counted<T>>();
    crosses::<Holder<T>>();
    crosses::<Opened<T>>();
    crosses::<Ended<T>>();
}
