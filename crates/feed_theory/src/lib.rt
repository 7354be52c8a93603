#![tactic(auto)]

// The theory of feeds: two good feeds with one text are the same feed, and what every list of feeds leaves in a book.
// The functions carry the theorems in their contracts.
ghost use Rattle.feed_types.specs.History.{OneText, EveryHistory};

pub fn one_text()
    ensures { OneText }
{}

pub fn every_history()
    ensures { EveryHistory }
{}
