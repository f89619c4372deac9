//! How many bytes arguments and results have where they are spelled.

ghost use Rattle.std.specs.Prelude.{ℕ};
ghost use Rattle.wire_xdr.specs.LengthLaws.{IsBounded, IsSized};
ghost use Rattle.nfs_base.specs.Forms.{answer};
ghost use Rattle.file_ops.specs.ArgLengthLaws.{file_arg_size};
ghost use Rattle.file_ops.specs.Args.{file_arg};
ghost use Rattle.file_ops.specs.CallbackLengthLaws.{cb_seq_size};
ghost use Rattle.file_ops.specs.Callbacks.{cb_seq, cb_seq_done};
ghost use Rattle.file_ops.specs.Files.{close_args, commit_args, read_args, write_done};
ghost use Rattle.file_ops.specs.LengthLaws.{file_res_size};
ghost use Rattle.file_ops.specs.Results.{file_res};
ghost use Rattle.file_ops.specs.Sessions.{create_session_done, sequence_args, sequence_done};

/// No spelling of these has more bytes, and neither the arguments nor the result of an operation have more than
/// their parts have.
#[tactic(auto, using(crate::specs::LengthLaws::close_args_bounded, crate::specs::LengthLaws::commit_args_bounded, crate::specs::LengthLaws::read_args_bounded, crate::specs::LengthLaws::sequence_args_bounded, crate::specs::LengthLaws::write_done_bounded, crate::specs::LengthLaws::create_session_done_bounded, crate::specs::LengthLaws::sequence_done_bounded, crate::specs::LengthLaws::file_res_sized, crate::specs::ArgLengthLaws::file_arg_sized))]
pub fn operations_have_lengths()
    ensures close_args { IsBounded close_args 20 }
    ensures commit_args { IsBounded commit_args 12 }
    ensures read_args { IsBounded read_args 28 }
    ensures sequence_args { IsBounded sequence_args 32 }
    ensures write_done { IsBounded write_done 16 }
    ensures create_session_done { IsBounded create_session_done 88 }
    ensures sequence_done { IsBounded sequence_done 36 }
    ensures arguments { (op : ℕ) → IsSized (file_arg op) file_arg_size }
    ensures results { (op : ℕ) → IsSized (file_res op) file_res_size }
{}

/// Nor have CB_SEQUENCE and its answer.
#[tactic(auto, using(crate::specs::CallbackLengthLaws::cb_seq_sized, crate::specs::CallbackLengthLaws::cb_seq_answer_bounded))]
pub fn callbacks_have_lengths()
    ensures arguments { IsSized cb_seq cb_seq_size }
    ensures result { IsBounded (answer cb_seq_done) 36 }
{}
