// Laws only, no code: what the tape of a word, of a stretch of a message and of its parts depends
// on.
#![tactic(auto)]
