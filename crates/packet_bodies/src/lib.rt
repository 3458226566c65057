//! What kernels ask of each other and answer: the bodies of packets and their parts, plain values whose spelling stands in
//! another crate.
#![tactic(auto)]

mod ask_request;
mod body;
mod callback_request;
mod carried_mode;
mod carried_stream;
mod close_request;
mod descriptor;
mod fetch_request;
mod file_op;
mod home_call;
mod home_request;
mod launch_request;
mod make_request;
mod move_request;
mod name_op;
mod name_request;
mod op_request;
mod opened_reply;
mod opening_request;
mod page_out_request;
mod reply_body;
mod request;
mod target;
mod transfer_request;
mod value_reply;
mod write_back_request;

pub use ask_request::AskRequest;
pub use body::Body;
pub use callback_request::CallbackRequest;
pub use carried_mode::CarriedMode;
pub use carried_stream::CarriedStream;
pub use close_request::CloseRequest;
pub use descriptor::Descriptor;
pub use fetch_request::FetchRequest;
pub use file_op::FileOp;
pub use home_call::HomeCall;
pub use home_request::HomeRequest;
pub use launch_request::LaunchRequest;
pub use make_request::MakeRequest;
pub use move_request::MoveRequest;
pub use name_op::NameOp;
pub use name_request::NameRequest;
pub use op_request::OpRequest;
pub use opened_reply::OpenedReply;
pub use opening_request::OpeningRequest;
pub use page_out_request::PageOutRequest;
pub use reply_body::ReplyBody;
pub use request::Request;
pub use target::Target;
pub use transfer_request::TransferRequest;
pub use value_reply::ValueReply;
pub use write_back_request::WriteBackRequest;
