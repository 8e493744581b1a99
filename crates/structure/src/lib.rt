// The structure of a template as document 01 says it: which line matches a test or a table, the names of sections, and the checks
// in their order. Definitions are in specs/, and in proofs/ that `template` finds just that.
#![tactic(auto)]
