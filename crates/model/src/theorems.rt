// The theorems of the model. Each function states one in its contract and does nothing.
ghost use Rattle.model.specs.Theorems.{AsManyAsParts, BytesLength, BytesSmall, BytesTellSelections, BytesTellTrees, ConstantsHaveNone, FrontThinned, Joins, LayoutReadsBack, ListingIsLayout, ListingOfSelections, NoRivalFewer, NumberingReaches, OnePart, OnePartMore, OneRoot, OneTree, OwnNodesLeast, PartsAre, PartsInOrder, PartsOfSelections, PinMatters, ReadingEnds, ReadingFollows, Straps, TreeMeans, TreeReads, UsedIsExact};
ghost use Rattle.model.specs.Examples.{Settled};

// Selections and their trees.

// With some pins fixed, the next one matters exactly when two addresses of what remains,
// unlike in that pin alone, have different codes.
pub fn pin_matters_exactly_where_codes_differ()
    ensures { PinMatters }
{}

// Two selections have one tree in an order exactly when they agree at every address.
pub fn one_tree_exactly_where_selections_agree()
    ensures { OneTree }
{}

// What remains of two selections is one tree exactly when they agree however the other pins are set.
pub fn one_part_exactly_where_rests_agree()
    ensures { OnePart }
{}

// The tree of a selection has at each address the code of the selection.
pub fn trees_read_as_their_selections()
    ensures { TreeReads }
{}

// The tree of joined selections is the join of their trees.
pub fn tree_of_a_join_joins_the_trees()
    ensures { Joins }
{}

// The tree of a strapped selection is the strapped tree.
pub fn tree_of_a_strap_straps_the_tree()
    ensures { Straps }
{}

// Parts.

// The list of parts has, each once, exactly what remains of a tree with the first pins fixed in some way,
// where the next pin matters.
pub fn parts_are_what_remains_and_matters()
    ensures { PartsAre }
{}

// The same of selections: a part is the view of the rest of the order under some setting of the first pins.
pub fn parts_of_selections_are_views_of_the_rest()
    ensures { PartsOfSelections }
{}

// A selection has no parts exactly when it is constant.
pub fn constants_alone_have_no_parts()
    ensures { ConstantsHaveNone }
{}

// Parts are numbered by place, then by the smallest line, then by the smallest values of the fixed pins.
pub fn parts_stand_by_place_line_and_setting()
    ensures { PartsInOrder }
{}

// Diagrams.

// Reading a branch at an address follows its tree there.
pub fn reading_follows_the_tree()
    ensures { ReadingFollows }
{}

// Sent from node to node, an address ends at the code that is read place by place.
pub fn reading_ends_where_nodes_send()
    ensures { ReadingEnds }
{}

// A branch has the tree of a selection exactly when it means that selection.
pub fn one_tree_exactly_where_the_branch_means_it()
    ensures { TreeMeans }
{}

// No ordered diagram for a selection has fewer nodes than the selection has parts.
pub fn no_rival_has_fewer_nodes()
    ensures { NoRivalFewer }
{}

// Ordered and reduced nodes reached from some roots are exactly as many as the different parts of the roots.
pub fn reduced_nodes_are_as_many_as_parts()
    ensures { AsManyAsParts }
{}

// The same in selections: the reached nodes are exactly as many as the different parts of all held lines.
pub fn used_number_is_exact()
    ensures { UsedIsExact }
{}

// There, the nodes reached from one root are a diagram of its selection with exactly as many nodes as parts,
// and no diagram of that selection has fewer.
pub fn own_nodes_are_a_least_diagram()
    ensures { OwnNodesLeast }
{}

// There, two roots are equal exactly when their selections agree at every address.
pub fn one_root_exactly_where_selections_agree()
    ensures { OneRoot }
{}

// Where all nodes are parts, one part that is no node makes more parts than nodes.
pub fn one_part_more_is_more_parts_than_nodes()
    ensures { OnePartMore }
{}

// The numbering lists the nodes reached from the roots, each once.
pub fn numbering_lists_the_reached_nodes()
    ensures { NumberingReaches }
{}

// A front of branches may be thinned to its first occurrences: the numbering stays.
pub fn numbering_asks_for_first_occurrences()
    ensures { FrontThinned }
{}

// Listings.

// A layout read back as a diagram gives the trees that it was laid out for, line for line.
pub fn layout_reads_back()
    ensures { LayoutReadsBack }
{}

// A listing of reduced nodes under their numbering is the layout of their trees.
pub fn listing_is_the_layout()
    ensures { ListingIsLayout }
{}

// The same in selections: the listing is the layout of the lines' selections.
pub fn listing_of_selections_is_their_layout()
    ensures { ListingOfSelections }
{}

// Two listings in one order are equal to the byte exactly when they are equal line for line.
pub fn equal_bytes_exactly_where_lines_are_equal()
    ensures { BytesTellTrees }
{}

// The same of selections: line for line both are nothing, or both agree at every address.
pub fn equal_bytes_exactly_where_selections_agree()
    ensures { BytesTellSelections }
{}

// A listing of 32 lines is 104 bytes long, with one more for each pin and 7 more for each part.
pub fn listing_has_its_length()
    ensures { BytesLength }
{}

// Each number of a listing is a byte.
pub fn listing_is_all_bytes()
    ensures { BytesSmall }
{}

// Examples.

// Counts, used numbers, a strap and a listing that are known beforehand.
pub fn examples_settle()
    ensures { Settled }
{}
