//! The packets that kernels send each other, as bytes: each packet has exactly one spelling (this project).
#![tactic(auto)]

mod ask_kind;
mod ask_request;
mod call_kind;
mod callback_request;
mod carried_mode;
mod carried_stream;
mod close_request;
mod fetch_request;
mod field;
mod file_op;
mod flushed;
mod grant;
mod home_call;
mod home_request;
mod image;
mod launch_request;
mod make_request;
mod move_request;
mod name_op;
mod name_request;
mod names;
mod numbers;
mod op_request;
mod opened_reply;
mod opening_request;
mod packet;
mod page_out_request;
mod parts;
mod path;
mod reply_body;
mod request;
mod target;
mod transfer_request;
mod value_reply;
mod write_back_request;

pub use field::Field;
pub use packet::Packet;
pub use packet_bodies::{
    AskRequest, Body, CallbackRequest, CarriedMode, CarriedStream, CloseRequest, Descriptor,
    FetchRequest, FileOp, HomeCall, HomeRequest, LaunchRequest, MakeRequest, MoveRequest, NameOp,
    NameRequest, OpRequest, OpenedReply, OpeningRequest, PageOutRequest, ReplyBody, Request,
    Target, TransferRequest, ValueReply, WriteBackRequest,
};
