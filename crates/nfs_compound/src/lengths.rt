//! How many bytes compounds and replies have.

ghost use Rattle.std.specs.Prelude.{◌+◌, ◌≤◌, length, sum_by};
ghost use Rattle.nfs_base.specs.declared.limits.TheConstants.{TEXT_LIMIT};
ghost use Rattle.wire_xdr.specs.LengthLaws.{IsSized};
ghost use Rattle.nfs_compound.specs.declared.cb_compound.CbCompound.{CbCompound};
ghost use Rattle.nfs_compound.specs.declared.cb_reply.CbReply.{CbReply};
ghost use Rattle.nfs_compound.specs.declared.compound.Compound.{Compound};
ghost use Rattle.nfs_compound.specs.declared.reply.Reply.{Reply};
ghost use Rattle.nfs_compound.specs.CallLengthLaws.{op_size, cb_op_size, cb_res_size};
ghost use Rattle.nfs_compound.specs.Callbacks.{cb_outcome, cb_reply};
ghost use Rattle.nfs_compound.specs.Compounds.{compound_bytes, CompoundFits, cb_compound_bytes, CbCompoundFits};
ghost use Rattle.nfs_compound.specs.LengthLaws.{res_size};
ghost use Rattle.nfs_compound.specs.Results.{outcome, reply};

/// A compound has no more bytes than its operations beside a tag and three or four words.
#[tactic(auto, using(crate::specs::CallLengthLaws::compound_sized, crate::specs::CallLengthLaws::cb_compound_sized))]
pub fn compounds_have_lengths()
    ensures compound { (c : Compound) → CompoundFits c → length (compound_bytes c) ≤ TEXT_LIMIT + 15 + sum_by op_size c.ops }
    ensures cb_compound { (c : CbCompound) → CbCompoundFits c → length (cb_compound_bytes c) ≤ TEXT_LIMIT + 19 + sum_by cb_op_size c.ops }
{}

/// A result has no more bytes than its parts, and a reply no more than its results beside a status and a tag.
#[tactic(auto, using(crate::specs::LengthLaws::outcome_sized, crate::specs::LengthLaws::reply_sized, crate::specs::CallLengthLaws::cb_outcome_sized, crate::specs::CallLengthLaws::cb_reply_sized))]
pub fn replies_have_lengths()
    ensures result { IsSized outcome res_size }
    ensures reply { (v : Reply) → reply.Fits v → length (reply.spell v) ≤ TEXT_LIMIT + 15 + sum_by res_size v.results }
    ensures cb_result { IsSized cb_outcome cb_res_size }
    ensures cb_reply { (v : CbReply) → cb_reply.Fits v → length (cb_reply.spell v) ≤ TEXT_LIMIT + 15 + sum_by cb_res_size v.results }
{}
