// The grammar of template lines: definitions of what each form spells in specs/, and in proofs/ that the readers of scan,
// arguments, texts and lines read just that.
#![tactic(auto)]
