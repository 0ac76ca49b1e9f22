// Laws that hold for all sets and all brackets.
ghost use Rattle.rpl_classes.specs.Laws.{OneList, ReadsInItsOwnWords};

/// Two sets with the same members have the same list of ranges. The list is sorted, its ranges
/// don't touch, and it contains only characters.
pub fn one_list()
    ensures { OneList }
{}

/// States how brackets of any depth and length are read.
pub fn reads_in_its_own_words()
    ensures { ReadsInItsOwnWords }
{}
