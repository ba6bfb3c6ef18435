//! What follows from the calls of a merge alone. The functions here do nothing: their contracts are the laws.

ghost use Rattle.gr_order.specs.Law.{GivesInOrder, IsOneList, GivesOneOrder};

/// Whatever the calls of a merge were, what it gave and what is ready are all items that it took up to the least
/// horizon, each once, rising by tick and then publisher.
pub fn gives_in_order()
    ensures { GivesInOrder }
{}

/// A merged list is fixed by its items and its tick.
pub fn is_one_list()
    ensures { IsOneList }
{}

/// Of two merged lists one begins with the other, where they are of the same items up to the lesser tick.
pub fn gives_one_order()
    ensures { GivesOneOrder }
{}
