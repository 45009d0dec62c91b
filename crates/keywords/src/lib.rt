// The reserved words as one ascending table: their bytes, where each starts, and the first version that has it. A table
// is built anew wherever its name is used, so a caller makes the three once and lends them. A word is looked for among
// the words of its first letter.
#![tactic(auto)]

mod letters;

ghost use Rattle.std.specs.Prelude.{◌≡◌, ◌<◌};
ghost use Rattle.keywords.specs.Keywords.{is_reserved, word_at};
ghost use Rattle.keywords.specs.Tables.{Tables, keyword_bytes, keyword_starts};
ghost use Rattle.text.specs.Bytes.{same as sameBytes};

use letters::stretch_of;
use text::{peek, same};

// The words written one after the other.
pub const BYTES: [u8; 1443] =
    *b"aliasalwaysalways_combalways_ffalways_latchandassertassignassumeautomaticbeforebeginbindbinsbinsofbit\
    breakbufbufif0bufif1bytecasecasexcasezcellchandleclassclockingcmosconfigconstconstraintcontextcontinue\
    covercovergroupcoverpointcrossdeassigndefaultdefparamdesigndisabledistdoedgeelseendendcaseendclass\
    endclockingendconfigendfunctionendgenerateendgroupendinterfaceendmoduleendpackageendprimitiveendprogram\
    endpropertyendsequenceendspecifyendtableendtaskenumeventexpectexportextendsexternfinalfirst_matchfor\
    forceforeachforeverforkforkjoinfunctiongenerategenvarhighz0highz1ififfifnoneignore_binsillegal_bins\
    importincdirincludeinitialinoutinputinsideinstanceintintegerinterfaceintersectjoinjoin_anyjoin_nonelarge\
    liblistlibrarylocallocalparamlogiclongintmacromodulematchesmediummodportmodulenandnegedgenewnmosnor\
    noshowcancellednotnotif0notif1nulloroutputpackagepackedparameterpmosposedgeprimitivepriorityprogram\
    propertyprotectedpull0pull1pulldownpulluppulsestyle_ondetectpulsestyle_oneventpurerandrandcrandcase\
    randsequencercmosrealrealtimerefregreleaserepeatreturnrnmosrpmosrtranrtranif0rtranif1scalaredsequence\
    shortintshortrealshowcancelledsignedsmallsolvespecifyspecparamstaticstringstrong0strong1structsuper\
    supply0supply1tabletaggedtaskthisthroughouttimetimeprecisiontimeunittrantranif0tranif1tritri0tri1triand\
    triortriregtypetypedefunionuniqueunsigneduseuwirevarvectoredvirtualvoidwaitwait_orderwandweak0weak1while\
    wildcardwirewithwithinworxnorxor";

// Where each word starts, and where the last one ends.
pub const STARTS: [usize; 222] = [
    0, 5, 11, 22, 31, 43, 46, 52, 58, 64, 73, 79, 84, 88, 92, 98, 101, 106, 109, 115, 121, 125,
    129, 134, 139, 143, 150, 155, 163, 167, 173, 178, 188, 195, 203, 208, 218, 228, 233, 241, 248,
    256, 262, 269, 273, 275, 279, 283, 286, 293, 301, 312, 321, 332, 343, 351, 363, 372, 382, 394,
    404, 415, 426, 436, 444, 451, 455, 460, 466, 472, 479, 485, 490, 501, 504, 509, 516, 523, 527,
    535, 543, 551, 557, 563, 569, 571, 574, 580, 591, 603, 609, 615, 622, 629, 634, 639, 645, 653,
    656, 663, 672, 681, 685, 693, 702, 707, 714, 721, 726, 736, 741, 748, 759, 766, 772, 779, 785,
    789, 796, 799, 803, 806, 821, 824, 830, 836, 840, 842, 848, 855, 861, 870, 874, 881, 890, 898,
    905, 913, 922, 927, 932, 940, 946, 965, 983, 987, 991, 996, 1004, 1016, 1021, 1025, 1033, 1036,
    1039, 1046, 1052, 1058, 1063, 1068, 1073, 1081, 1089, 1097, 1105, 1113, 1122, 1135, 1141, 1146,
    1151, 1158, 1167, 1173, 1179, 1186, 1193, 1199, 1204, 1211, 1218, 1223, 1229, 1233, 1237, 1247,
    1251, 1264, 1272, 1276, 1283, 1290, 1293, 1297, 1301, 1307, 1312, 1318, 1322, 1329, 1334, 1340,
    1348, 1351, 1356, 1359, 1367, 1374, 1378, 1382, 1392, 1396, 1401, 1406, 1411, 1419, 1423, 1427,
    1433, 1436, 1440, 1443,
];

// The first version that reserves each word: 0 for 1364-1995, 1 for 1364-2001, 2 for 1364-2005, 3 for 1800-2005.
pub const FIRSTS: [usize; 221] = [
    3, 0, 3, 3, 3, 0, 3, 0, 3, 1, 3, 0, 3, 3, 3, 3, 3, 0, 0, 0, 3, 0, 0, 0, 1, 3, 3, 3, 0, 1, 3, 3,
    3, 3, 3, 3, 3, 3, 0, 0, 0, 1, 0, 3, 3, 0, 0, 0, 0, 3, 3, 1, 0, 1, 3, 3, 0, 3, 0, 3, 3, 3, 0, 0,
    0, 3, 0, 3, 3, 3, 3, 3, 3, 0, 0, 3, 0, 0, 3, 0, 1, 1, 0, 0, 0, 3, 0, 3, 3, 3, 1, 1, 0, 0, 0, 3,
    1, 3, 0, 3, 3, 0, 3, 3, 0, 1, 1, 3, 1, 3, 3, 0, 3, 0, 3, 0, 0, 0, 3, 0, 0, 1, 0, 0, 0, 3, 0, 0,
    3, 3, 0, 0, 0, 0, 3, 3, 3, 3, 0, 0, 0, 0, 1, 1, 3, 3, 3, 3, 3, 0, 0, 0, 3, 0, 0, 0, 3, 0, 0, 0,
    0, 0, 0, 3, 3, 3, 1, 1, 0, 3, 0, 0, 3, 3, 0, 0, 3, 3, 0, 0, 0, 3, 0, 3, 3, 0, 3, 3, 0, 0, 0, 0,
    0, 0, 0, 0, 0, 3, 3, 3, 3, 1, 1, 2, 3, 0, 3, 3, 0, 3, 0, 0, 0, 0, 3, 0, 3, 3, 0, 0, 0,
];

// Whether `word` is word k of the table.
fn is_word(bytes: &[u8], starts: &[usize], word: &[u8], k: usize) -> bool
    requires { (bytes.now ≡ keyword_bytes) × (starts.now ≡ keyword_starts) × (k < 221) }
    ensures { result ≡ sameBytes word.now (word_at k) }
{
    let a = starts[k];
    let e = starts[k + 1];
    same(word, &bytes[a..e])
}

// Whether the version numbered `version` reserves `word`, by the three tables.
pub fn is_reserved(
    bytes: &[u8],
    starts: &[usize],
    firsts: &[usize],
    word: &[u8],
    version: usize,
) -> bool
    requires { Tables bytes.now starts.now firsts.now }
    ensures { result ≡ is_reserved word.now version }
{
    let stretch = stretch_of(peek(word, 0));
    if (stretch.longest as usize) < word.len() {
        return false;
    }
    for k in stretch.from as usize..stretch.end as usize {
        if is_word(bytes, starts, word, k) {
            return firsts[k] <= version;
        }
    }
    false
}
