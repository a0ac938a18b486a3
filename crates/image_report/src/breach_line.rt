// The lines of what is wrong with an image.

ghost use Rattle.std.specs.Prelude.{◌≡◌, ◌++◌, IfOk, OnOk};
ghost use Rattle.text_lines.specs.Lines.{spaced};
ghost use Rattle.sound_image.specs.Rules.{rule_number};
ghost use Rattle.image_report.specs.Lines.{breach_line as line_of_breach, breach_words, fault_line as line_of_fault, fault_words, feature_word, super_word};

use image_dump::ImageFault;
use media_sys::{Feature, SuperField};
use sound_image::{Breach, Rule};
use std::alloc::{AllocError, Global};
use text_lines::{push_number_word, push_word};

// The line of what is wrong with contents.
pub(crate) fn breach_line(alloc: Global, breach: Breach) -> Result<Vec<u8>, AllocError>
    ensures { IfOk result (λ line. line.items ≡ line_of_breach breach) }
{
    let mut line = Vec::from_slice(alloc, b"image".as_slice())?;
    push_breach(&mut line, breach)?;
    line.push(b'\n')?;
    Ok(line)
}

// The line of what is wrong with the bytes of an image.
pub(crate) fn fault_line(alloc: Global, fault: ImageFault) -> Result<Vec<u8>, AllocError>
    ensures { IfOk result (λ line. line.items ≡ line_of_fault fault) }
{
    let mut line = Vec::from_slice(alloc, b"image".as_slice())?;
    push_fault(&mut line, fault)?;
    line.push(b'\n')?;
    Ok(line)
}

// Appends the words of what is wrong with the bytes of an image.
fn push_fault(line: &mut Vec<u8>, fault: ImageFault) -> Result<(), AllocError>
    ensures { OnOk result (line.new.items ≡ line.old.items ++ spaced (fault_words fault)) }
{
    match fault {
        ImageFault::Memory => Ok(()),
        ImageFault::Short { len } => {
            push_word(line, b"short".as_slice())?;
            push_number_word(line, len)
        }
        ImageFault::Super { field } => push_breach(line, Breach::Super { field }),
        ImageFault::Feature { what, lnum, offs } => {
            push_breach(line, Breach::Feature { what, lnum, offs })
        }
        ImageFault::Long { len, .. } => {
            push_word(line, b"long".as_slice())?;
            push_number_word(line, len)
        }
    }
}

// Appends the words of what is wrong with contents.
fn push_breach(line: &mut Vec<u8>, breach: Breach) -> Result<(), AllocError>
    ensures { OnOk result (line.new.items ≡ line.old.items ++ spaced (breach_words breach)) }
{
    match breach {
        Breach::Super { field } => {
            push_word(line, b"super".as_slice())?;
            push_word(line, word_of_field(field))
        }
        Breach::Feature { what, lnum, offs } => {
            push_word(line, b"feature".as_slice())?;
            push_word(line, word_of_feature(what))?;
            push_number_word(line, lnum as u64)?;
            push_number_word(line, offs as u64)
        }
        Breach::NoMaster => {
            push_word(line, b"no".as_slice())?;
            push_word(line, b"master".as_slice())
        }
        Breach::Damaged {
            rule,
            lnum,
            offs,
            wanted,
            found,
        } => {
            push_word(line, b"damaged".as_slice())?;
            push_number_word(line, number_of_rule(rule))?;
            push_number_word(line, lnum as u64)?;
            push_number_word(line, offs as u64)?;
            push_number_word(line, wanted)?;
            push_number_word(line, found)
        }
    }
}

// The number of a rule.
fn number_of_rule(rule: Rule) -> u64
    ensures { result ≡ rule_number rule }
{
    match rule {
        Rule::Superblock => 1,
        Rule::Masters => 2,
        Rule::Properties => 3,
        Rule::Index => 4,
        Rule::Log => 5,
        Rule::Buds => 6,
        Rule::Leaves => 7,
        Rule::Sums => 8,
        Rule::Ends => 9,
        Rule::Orphans => 10,
        Rule::Tree => 11,
        Rule::Links => 12,
    }
}

// The word for a field of a superblock.
fn word_of_field(field: SuperField) -> &'static [u8]
    ensures { result.now ≡ super_word field }
{
    match field {
        SuperField::LebSize => b"leb_size".as_slice(),
        SuperField::MinIo => b"min_io".as_slice(),
        SuperField::LogLebs => b"log_lebs".as_slice(),
        SuperField::LptLebs => b"lpt_lebs".as_slice(),
        SuperField::OrphLebs => b"orph_lebs".as_slice(),
        SuperField::LebCnt => b"leb_cnt".as_slice(),
        SuperField::MaxLebCnt => b"max_leb_cnt".as_slice(),
        SuperField::Fanout => b"fanout".as_slice(),
        SuperField::LsaveCnt => b"lsave_cnt".as_slice(),
        SuperField::Node => b"node".as_slice(),
    }
}

// The word for a feature.
fn word_of_feature(what: Feature) -> &'static [u8]
    ensures { result.now ≡ feature_word what }
{
    match what {
        Feature::KeyHash => b"key_hash".as_slice(),
        Feature::KeyFmt => b"key_fmt".as_slice(),
        Feature::Version => b"version".as_slice(),
        Feature::Heads => b"heads".as_slice(),
        Feature::DoubleHash => b"double_hash".as_slice(),
        Feature::Encryption => b"encryption".as_slice(),
        Feature::Authentication => b"authentication".as_slice(),
        Feature::Flags => b"flags".as_slice(),
        Feature::BigModel => b"big_model".as_slice(),
        Feature::Compressed => b"compressed".as_slice(),
        Feature::Attributes => b"attributes".as_slice(),
    }
}
