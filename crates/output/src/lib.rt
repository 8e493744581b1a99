// What a report's text is made of, whatever the template and the store: lines of 0x20–0x7E, each with its line end, and form feeds.
// Definitions are in specs/, the theorem in proofs/Reports.
#![tactic(auto)]
