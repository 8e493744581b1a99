// Lists of edits of one store: what each leaves of the cells, and which answers stay. Definitions are in specs/, theorems in proofs/.
#![tactic(auto)]
