// The natives by their names.
ghost use Rattle.std.specs.Prelude.{◌≡◌, option_map};
ghost use Rattle.module_spec.specs.Answering.{codec_natives, row_in};
ghost use Rattle.mod_codec.specs.View.{named_rows, parameter_of, row_of};

/// A native that makes a text of a value, a value of a text, or a text of a text.
#[derive(Clone, Copy)]
pub enum Codec {
    JsonEncode,
    JsonDecode,
    YamlEncode,
    YamlDecode,
    Base64Encode,
    Base64Decode,
    Sha256,
    Md5,
}

/// The native of a name among these.
fn codec_among(name: &str, codecs: &[(&str, Codec)]) -> Option<Codec>
    ensures { option_map row_of result ≡ row_in name.now (named_rows codecs.now) }
{
    for codec in codecs {
        if name == codec.0 {
            return Some(codec.1);
        }
    }
    None
}

/// The native of a name, as `json.encode`, if it is one of these.
#[tactic(auto, unfolding(crate::specs::View::value_row_of))]
pub fn codec_named(name: &str) -> Option<Codec>
    ensures { option_map row_of result ≡ row_in name.now codec_natives }
{
    codec_among(
        name,
        &[
            ("json.encode", Codec::JsonEncode),
            ("json.decode", Codec::JsonDecode),
            ("yaml.encode", Codec::YamlEncode),
            ("yaml.decode", Codec::YamlDecode),
            ("base64.encode", Codec::Base64Encode),
            ("base64.decode", Codec::Base64Decode),
            ("sha256.sum", Codec::Sha256),
            ("md5.sum", Codec::Md5),
        ],
    )
}

/// The name of its one parameter.
pub(crate) fn parameter_of(codec: Codec) -> &'static str
    ensures { result.now ≡ parameter_of codec }
{
    match codec {
        Codec::JsonEncode | Codec::YamlEncode => "x",
        _ => "text",
    }
}
